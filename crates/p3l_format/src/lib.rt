//! Formats that are read and written both ways, put together from small fields.
#![tactic(auto)]

pub mod decimal;
pub mod fault;
pub mod field;
pub mod line;
pub mod number;
pub mod series;
pub mod text;
pub mod whole;

pub use decimal::{read_number_in, read_number_then, write_number, write_number_then};
pub use fault::{Cause, FieldFault, ReadError};
pub use field::{Field, ListField, read_so_many, write_each};
pub use line::{NumberLine, fault_at, line_at};
pub use number::{
    fault_of, read_block, read_exact, read_i64, read_one_of, read_u8, read_u8_in, read_u32,
    read_u32_below, read_u32_in, read_u64, write_i64, write_u8, write_u32, write_u64,
};
pub use series::{Item, read_until, write_series};
pub use text::{read_text, strip};
pub use whole::{begins_no_other, decode, encode, one_bad_line_is_first};
