// The class of every byte, as a table.
ghost use Rattle.std.specs.Prelude.{◌≡◌, ℕ, ◌+◌, ◌<◌, ◌≤◌, length, slice_index};
ghost use Rattle.blocks.specs.Coding.{Filled, TableOf};

// A class is a code of four bits. In the table each bit has a lane of 8, so that the entries of 8 bytes can be added up.
const o: u32 = 0x00_00_00_00; // none

const Q: u32 = 0x00_00_00_01; // "

const E: u32 = 0x00_00_01_00; // \

const L: u32 = 0x00_01_00_00; // {

const A: u32 = 0x00_01_00_01; // [

const R: u32 = 0x01_00_00_00; // }

const Z: u32 = 0x01_00_00_01; // ]

const N: u32 = 0x01_01_00_00; // :

const S: u32 = 0x01_01_00_01; // ,

// Byte 16 i + j stands in row i, column j:
//   0  1  2  3  4  5  6  7  8  9  A  B  C  D  E  F
const CLASSES: [[u32; 16]; 16] = [
    [o, o, o, o, o, o, o, o, o, o, o, o, o, o, o, o], // 0
    [o, o, o, o, o, o, o, o, o, o, o, o, o, o, o, o], // 1
    [o, o, Q, o, o, o, o, o, o, o, o, o, S, o, o, o], // 2
    [o, o, o, o, o, o, o, o, o, o, N, o, o, o, o, o], // 3
    [o, o, o, o, o, o, o, o, o, o, o, o, o, o, o, o], // 4
    [o, o, o, o, o, o, o, o, o, o, o, A, E, Z, o, o], // 5
    [o, o, o, o, o, o, o, o, o, o, o, o, o, o, o, o], // 6
    [o, o, o, o, o, o, o, o, o, o, o, L, o, R, o, o], // 7
    [o, o, o, o, o, o, o, o, o, o, o, o, o, o, o, o], // 8
    [o, o, o, o, o, o, o, o, o, o, o, o, o, o, o, o], // 9
    [o, o, o, o, o, o, o, o, o, o, o, o, o, o, o, o], // A
    [o, o, o, o, o, o, o, o, o, o, o, o, o, o, o, o], // B
    [o, o, o, o, o, o, o, o, o, o, o, o, o, o, o, o], // C
    [o, o, o, o, o, o, o, o, o, o, o, o, o, o, o, o], // D
    [o, o, o, o, o, o, o, o, o, o, o, o, o, o, o, o], // E
    [o, o, o, o, o, o, o, o, o, o, o, o, o, o, o, o], // F
];

// One row, behind the entries that are laid already. (By hand: the rows become stores of constants so; by copy_from_slice they are copied when
// it runs, and a line's index takes a tenth longer.)
fn put_row(t: &mut [u32; 256], row: &[u32; 16], from: usize)
    requires { (length t.old ≡ 256) × (from + 16 ≤ 256) }
    ensures t_len { length t.new ≡ 256 }
    ensures by_index { (f : ℕ → ℕ) → Filled f from t.old → ((j : ℕ) → j < 16 → slice_index row.now j ≡ f (from + j)) → Filled f (from + 16) t.new }
{
    for j in 0..16 {
        t[from + j] = row[j];
    }
}

// The rows one behind the other. A step makes it once and lends it down, since a constant array would be copied at every use. (No struct with
// `TableOf` as its invariant: it would be copied where it is made, and the listed theorem `block_spec` speaks of any entries.)
pub fn table() -> [u32; 256]
    ensures { TableOf result }
{
    let rows = CLASSES;
    let mut t = [0u32; 256];
    for i in 0..16 {
        put_row(&mut t, &rows[i], 16 * i);
    }
    t
}
