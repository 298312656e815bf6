// The exports of a server.

ghost use Rattle.std.specs.Prelude.{◌≡◌, ◌<◌, ◌≤◌, ◌↔◌, ℕ, Some, None, IsNone, IfSome, IfOk, IfErr, OnOk};
ghost use Rattle.binder.specs.Index.{place_in};
ghost use Rattle.binder.specs.Exports as exports;
ghost use Rattle.binder.specs.Exports.{accepts, booted, export_fault, exported, free_place, look_up, next_export, withdrawn};

use crate::index::{Places, forget, note, place_of};
use crate::interface::InterfaceName;
use crate::row::{ExportFault, ExportRow, Verdict};
use crate::rows::{binding_at, free_place, row_at};
use rpc_header::Export;
use std::alloc::Global;
use std::marker::Model;

/// The number of rows.
pub const EXPORT_ROWS: usize = 16;

/// The interfaces that a server exports, each in a row of its own, and the next identifier.
#[derive(Drop)]
pub struct Exports {
    rows: [Option<ExportRow>; EXPORT_ROWS],
    // one more than the last second that fits, at the most
    next: u64,
    // where each name is; the first export makes it
    places: Option<Places>,
}

impl Model for Exports {
    ghost use Rattle.binder.specs.Exports.{Exports};

    ghost Value = { Exports };

    ghost use Rattle.binder.specs.Index.{IsKept};

    ghost view = { λ exports. record { rows = exports.rows; next = exports.next } };

    ghost invariant = { λ exports. IsKept exports.rows exports.next exports.places };
}

impl Exports {
    /// The exports of a server that boots in the second `now`: none.
    pub fn boot(now: u32) -> Self
        ensures { result ≡ booted now }
    {
        Exports {
            rows: [None; EXPORT_ROWS],
            next: u64::from(now),
            places: None,
        }
    }

    /// Exports an interface that has this many procedures, in the second `now`. It takes the least free row
    /// and the next identifier. A refusal changes nothing.
    pub fn export(
        &mut self,
        alloc: Global,
        name: InterfaceName,
        procedures: u16,
        now: u32,
    ) -> Result<Export, ExportFault>
        ensures fault { (fault : ExportFault) → export_fault self.old name now ≡ Some fault → result ≡ Err fault }
        ensures memory { export_fault self.old name now ≡ None → IfErr result (λ fault. fault ≡ ExportFault.Memory) }
        ensures export { IfOk result (λ export. export ≡ next_export self.old) }
        ensures exports { IfOk result (λ _. self.new ≡ exported self.old name procedures) }
        ensures unchanged { IfErr result (λ _. self.new ≡ self.old) }
    {
        let index = free_row(&self.rows, self.next, &self.places, &name, now)?;
        note(&mut self.places, alloc, name, index as u16)?;
        let identifier = self.next as u32;
        self.rows[index] = Some(ExportRow {
            name,
            identifier,
            procedures,
        });
        self.next += 1;
        Ok(Export {
            identifier,
            index: index as u16,
        })
    }

    /// Frees the row of a name. Gives the binding that it had, or `None` exactly where the name isn't exported.
    pub fn withdraw(&mut self, name: &InterfaceName) -> Option<Export>
        ensures export { result ≡ look_up self.old.rows name.now }
        ensures exports { self.new ≡ withdrawn self.old name.now }
    {
        let index = forget(&mut self.places, name)?;
        let export = binding_at(&self.rows, index);
        self.rows[usize::from(index)] = None;
        export
    }

    /// The binding to the export of a name, or `None` exactly where the name isn't exported.
    pub fn look_up(&self, name: &InterfaceName) -> Option<Export>
        ensures { result ≡ look_up self.now.rows name.now }
    {
        let index = place_of(&self.places, name)?;
        binding_at(&self.rows, index)
    }

    /// Whether a call by this binding may run this procedure.
    #[tactic(auto, unfolding(crate::specs::Exports::accepts))]
    pub fn accepts(&self, export: Export, procedure: u16) -> Verdict
        ensures { result ≡ accepts self.now.rows export procedure }
    {
        match row_at(&self.rows, export.index) {
            Some(row) if row.identifier == export.identifier => {
                if procedure < row.procedures {
                    Verdict::Accepted
                } else {
                    Verdict::NoProcedure
                }
            }
            _ => Verdict::WrongBinding,
        }
    }
}

/// The row that the next export takes, unless there is a fault.
#[tactic(auto, unfolding(crate::specs::Exports::export_fault))]
fn free_row(
    rows: &[Option<ExportRow>; EXPORT_ROWS],
    next: u64,
    places: &Option<Places>,
    name: &InterfaceName,
    now: u32,
) -> Result<usize, ExportFault>
    requires { place_in places.now name.now ≡ exports.place_of rows.now name.now }
    ensures fault { IfErr result (λ fault. export_fault (record { rows = rows.now; next = next }) name.now now ≡ Some fault) }
    ensures no_fault { OnOk result (export_fault (record { rows = rows.now; next = next }) name.now now ≡ None) }
    ensures row { IfOk result (λ index. free_place rows.now ≡ Some index) }
    ensures within { IfOk result (λ index. index < EXPORT_ROWS) }
    ensures in_time { OnOk result (next ≤ now) }
{
    if place_of(places, name).is_some() {
        return Err(ExportFault::Exists);
    }
    let index = free_place(rows).ok_or(ExportFault::Full)?;
    if next > u64::from(now) {
        return Err(ExportFault::TooFast { next, now });
    }
    Ok(index)
}
