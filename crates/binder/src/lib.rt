//! Names of interfaces, and the exports of a server.
#![tactic(auto)]

mod exports;
mod index;
mod interface;
mod laws;
mod name;
mod row;
mod rows;

pub use exports::{EXPORT_ROWS, Exports};
pub use interface::{BIND_DATA_LIMIT, InterfaceName, read_bind_data, write_bind_data};
pub use laws::{
    a_name_is_found_in_its_row, a_withdrawn_export_is_refused, accepted_bindings_are_live,
    an_export_is_found, bind_data_is_read_in_one_way, exports_stay_sound, identifiers_rise,
    same_names_are_equal,
};
pub use name::{NAME_LIMIT, Name, read_name};
pub use row::{ExportFault, ExportRow, Verdict};
