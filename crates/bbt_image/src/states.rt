// The states of blocks in a page, four to a byte, the first in the lowest bits.
ghost use Rattle.std.specs.Prelude.{◌≡◌, ◌≤◌, ◌*◌, ◌/◌, [], ◌∷◌, length, map};
ghost use Rattle.nand_model.specs.Table.{entries_of, padded, state_read, states_in, table_bytes};

use bbt_ram::BlockTable;

// The low bit of each of the four entries of a byte.
const LOW_BITS: u8 = 0x55;

// Four states as they are written: good and reserved as 3, worn as 2, factory bad as 0.
fn byte_written(states: u8) -> u8
    ensures { result ∷ [] ≡ table_bytes (entries_of states) }
{
    let low = states & LOW_BITS;
    let high = states >> 1 & LOW_BITS;
    !(low | (low & high) << 1)
}

// The four states that a byte on flash means: 3 is good, 0 factory bad, 1 and 2 are worn.
fn states_read(byte: u8) -> u8
    ensures { entries_of result ≡ map state_read (entries_of byte) }
{
    let low = byte & LOW_BITS;
    let high = byte >> 1 & LOW_BITS;
    !(low & high | (low | high) << 1)
}

// Writes the states of a table, and 0xFF behind them.
pub(crate) fn put_states(table: &BlockTable, area: &mut [u8])
    requires { length table.now / 4 ≤ length area.old }
    ensures { area.new ≡ padded (length area.old) (table_bytes table.now) }
{
    let (states, rest) = area.split_at_mut((table.len() / 4) as usize);
    put_bytes(table, states);
    rest.fill(0xff);
}

// Writes the bytes of a table.
fn put_bytes(table: &BlockTable, out: &mut [u8])
    requires whole { length out.old ≡ length table.now / 4 }
    requires few { length out.old ≤ 1024 }
    ensures { out.new ≡ table_bytes table.now }
{
    for (n, byte) in out.iter_mut().enumerate() {
        *byte = byte_written(table.byte(n as u32));
    }
}

// Replaces all states of a table by those that its bytes on flash mean.
pub(crate) fn take_states(bytes: &[u8], table: &mut BlockTable)
    requires few { length bytes.now ≤ 1024 }
    requires whole { length table.old ≡ 4 * length bytes.now }
    ensures { table.new ≡ states_in bytes.now }
{
    for (n, byte) in bytes.iter().enumerate() {
        table.set_byte(n as u32, states_read(*byte));
    }
}
