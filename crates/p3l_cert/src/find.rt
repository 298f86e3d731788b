// Rows found by their key.

ghost use Rattle.std.specs.Prelude.{◌≡◌, ◌≤◌, IfOk, IfSome};
ghost use Rattle.p3l_cert.specs.Rule.{is_key, kept, needed};
ghost use Rattle.p3l_cert.specs.Find.{IsPlace};
ghost use Rattle.p3l_cert.specs.Order.{is_below};
ghost use Rattle.p3l_cert.specs.Rows.{AreRows};

use crate::cert::{Key, Row};

// Returns true exactly if a row is that of a key.
fn is_key(row: &Row, key: Key) -> bool
    ensures { result ≡ is_key row.now key }
{
    row.node == key.node && row.bound == key.bound && row.cap == key.cap
}

/// Returns true exactly if a row comes before that of a key.
pub fn is_below(row: &Row, key: Key) -> bool
    ensures { result ≡ is_below row.now key }
{
    row.node < key.node
        || row.node == key.node
            && (row.bound < key.bound || row.bound == key.bound && row.cap < key.cap)
}

// The number of rows before that of a key.
fn place(rows: &[Row], key: Key) -> usize
    requires { AreRows rows.now }
    ensures { IsPlace rows.now key result }
{
    let mut low = 0;
    let mut high = rows.len();
    while low < high {
        let middle = low + (high - low) / 2;
        if is_below(&rows[middle], key) {
            low = middle + 1;
        } else {
            high = middle;
        }
    }
    low
}

// The least that the rows keep at a key.
fn kept(rows: &[Row], key: Key) -> Option<u32>
    requires { AreRows rows.now }
    ensures least { result ≡ kept rows.now key }
    ensures small { IfSome result (λ least. (1 ≤ least) × (least ≤ 513)) }
{
    let Some(row) = rows.get(place(rows, key)) else {
        return None;
    };
    if is_key(row, key) {
        return Some(row.least);
    }
    None
}

/// The least that the rows keep at a key, or the key.
pub fn needed(rows: &[Row], key: Key) -> Result<u32, Key>
    requires { AreRows rows.now }
    ensures least { result ≡ needed rows.now key }
    ensures small { IfOk result (λ least. (1 ≤ least) × (least ≤ 513)) }
{
    kept(rows, key).ok_or(key)
}
