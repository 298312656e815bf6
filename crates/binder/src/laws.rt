//! What holds of names, and of the exports of a server. Each function here does nothing: its contract is
//! the law.

ghost use Rattle.std.specs.Prelude.{◌≡◌, ◌≤◌, ◌<◌, ◌↔◌, ℕ, List, Option, Some, None, false, IsTrue, IsSome, length, nat_lt, if◌then◌else◌};
ghost use Rattle.rpc_header.specs.declared.Export.{Export};
ghost use Rattle.binder.specs.declared.interface.InterfaceName.{InterfaceName};
ghost use Rattle.binder.specs.declared.row.ExportRow.{ExportRow};
ghost use Rattle.binder.specs.Exports.{Exports, accepts, booted, export_fault, exported, look_up, next_export, row_at, withdrawn};
ghost use Rattle.binder.specs.History.{AreRisingFrom, Change, after, identifiers};
ghost use Rattle.binder.specs.Interfaces.{bind_data, is_interface_name, is_same_name, name_in};
ghost use Rattle.binder.specs.Sound.{AreSound};

use crate::interface::BIND_DATA_LIMIT;
use crate::row::Verdict;

/// The data of a Bind says one name, and a name has one form as such data.
pub fn bind_data_is_read_in_one_way()
    ensures read_back { (name : InterfaceName) → IsTrue (is_interface_name name) → name_in (bind_data name) ≡ Some name }
    ensures one_form { (bytes : List ℕ) (name : InterfaceName) → name_in bytes ≡ Some name
        → IsTrue (is_interface_name name) × (bytes ≡ bind_data name) }
    ensures size { (name : InterfaceName) → IsTrue (is_interface_name name) → length (bind_data name) ≤ BIND_DATA_LIMIT }
{}

/// Names that compare as the same are the same.
pub fn same_names_are_equal()
    ensures { (a b : InterfaceName) → IsTrue (is_same_name a b) ↔ (a ≡ b) }
{}

/// A name is found where a row has it, and it isn't found exactly where no row has it.
pub fn a_name_is_found_in_its_row()
    ensures found { (rows : List (Option ExportRow)) (name : InterfaceName) (export : Export) → look_up rows name ≡ Some export
        → (row : ExportRow) × (row_at rows export.index ≡ Some row) × (row.name ≡ name) × (row.identifier ≡ export.identifier) }
    ensures none { (rows : List (Option ExportRow)) (name : InterfaceName) → (look_up rows name ≡ None)
        ↔ ((i : ℕ) (row : ExportRow) → row_at rows i ≡ Some row → ¬ (row.name ≡ name)) }
{}

/// A call is accepted exactly where the row of its binding has that very export, with that procedure.
pub fn accepted_bindings_are_live()
    ensures accepted { (exports : Exports) (export : Export) (procedure : ℕ)
        → (accepts exports.rows export procedure ≡ Verdict.Accepted)
        ↔ ((row : ExportRow) × (row_at exports.rows export.index ≡ Some row) × (row.identifier ≡ export.identifier) × (procedure < row.procedures)) }
    ensures no_procedure { (exports : Exports) (export : Export) (procedure : ℕ)
        → (accepts exports.rows export procedure ≡ Verdict.NoProcedure)
        ↔ ((row : ExportRow) × (row_at exports.rows export.index ≡ Some row) × (row.identifier ≡ export.identifier) × (row.procedures ≤ procedure)) }
{}

/// A name that is exported is found, with the least free row and the next identifier, and its calls are
/// accepted. What is found of other names stays.
pub fn an_export_is_found()
    ensures found { (boot : ℕ) (exports : Exports) (name : InterfaceName) (procedures now : ℕ)
        → AreSound boot exports → export_fault exports name now ≡ None
        → look_up (exported exports name procedures).rows name ≡ Some (next_export exports) }
    ensures accepted { (boot : ℕ) (exports : Exports) (name : InterfaceName) (procedures now procedure : ℕ)
        → AreSound boot exports → export_fault exports name now ≡ None
        → accepts (exported exports name procedures).rows (next_export exports) procedure
        ≡ (if nat_lt procedure procedures then Verdict.Accepted else Verdict.NoProcedure) }
    ensures others { (boot : ℕ) (exports : Exports) (name other : InterfaceName) (procedures now : ℕ)
        → AreSound boot exports → export_fault exports name now ≡ None → is_same_name name other ≡ false
        → look_up (exported exports name procedures).rows other ≡ look_up exports.rows other }
    ensures free { (exports : Exports) (name : InterfaceName) (now : ℕ) → export_fault exports name now ≡ None
        → row_at exports.rows (next_export exports).index ≡ None }
    ensures least { (exports : Exports) (name : InterfaceName) (now i : ℕ) → export_fault exports name now ≡ None
        → i < (next_export exports).index → IsSome (row_at exports.rows i) }
    ensures in_time { (exports : Exports) (name : InterfaceName) (now : ℕ) → export_fault exports name now ≡ None
        → exports.next ≤ now }
{}

/// A name that is withdrawn isn't found, and its binding is refused. What is found of other names stays.
pub fn a_withdrawn_export_is_refused()
    ensures gone { (boot : ℕ) (exports : Exports) (name : InterfaceName) → AreSound boot exports
        → look_up (withdrawn exports name).rows name ≡ None }
    ensures refused { (boot : ℕ) (exports : Exports) (name : InterfaceName) (export : Export) (procedure : ℕ)
        → AreSound boot exports → look_up exports.rows name ≡ Some export
        → accepts (withdrawn exports name).rows export procedure ≡ Verdict.WrongBinding }
    ensures others { (boot : ℕ) (exports : Exports) (name other : InterfaceName) → AreSound boot exports
        → is_same_name name other ≡ false → look_up (withdrawn exports name).rows other ≡ look_up exports.rows other }
{}

/// The exports stay sound through any changes since the server booted.
pub fn exports_stay_sound()
    ensures boot { (now : ℕ) → AreSound now (booted now) }
    ensures export { (boot : ℕ) (exports : Exports) (name : InterfaceName) (procedures now : ℕ)
        → AreSound boot exports → export_fault exports name now ≡ None → AreSound boot (exported exports name procedures) }
    ensures withdraw { (boot : ℕ) (exports : Exports) (name : InterfaceName)
        → AreSound boot exports → AreSound boot (withdrawn exports name) }
    ensures any_changes { (boot : ℕ) (changes : List Change) → AreSound boot (after (booted boot) changes) }
{}

/// Identifiers rise, from the second of the boot on, and none is given twice.
pub fn identifiers_rise()
    ensures { (boot : ℕ) (changes : List Change) → AreRisingFrom boot (identifiers (booted boot) changes) }
{}
