// Writing a network as a sheet.
ghost use Rattle.std.specs.Prelude.{◌≡◌, ◌+◌, ◌≤◌, ℕ, List, [], ◌∷◌, ◌++◌, length, decimal};
ghost use Rattle.std.specs.List.{flat_map};
ghost use Rattle.arrayvec.specs.ArrayVec.{array_vec_len};
ghost use Rattle.network.specs.Networks.{net_of};
ghost use Rattle.sheet.specs.Rounds.{ReadAfterWrite};
ghost use Rattle.sheet.specs.Writing.{node_line, line_of, sheet_of, write_answer, write_after};

use arrayvec::ArrayVec;
use itoa::Buffer;
use network::{Edge, Network};
use refusal::Refusal;

// The longest sheet: 256 lines of 13 bytes and 1,024 of 30.
pub const MOST_BYTES: usize = 34_048;

type Text = ArrayVec<u8, MOST_BYTES>;

fn put(text: &mut Text, bytes: &[u8])
    requires { array_vec_len text.old + length bytes.now ≤ MOST_BYTES }
    ensures { text.new.items ≡ text.old.items ++ bytes.now }
{
    // It fits: the contract asks for the room.
    let _ = text.try_extend_from_slice(bytes);
}

// The number, and behind it the byte that closes its field.
fn put_field(text: &mut Text, n: u64, end: u8)
    requires { array_vec_len text.old + length (decimal n ++ end ∷ []) ≤ MOST_BYTES }
    ensures { text.new.items ≡ text.old.items ++ decimal n ++ end ∷ [] }
{
    put(text, Buffer::new().format(n).as_bytes());
    text.push(end);
}

// What is written as a line of its own.
trait PutLine {
    ghost line: { Self → List ℕ };

    fn put_line(&self, text: &mut Text)
        requires { array_vec_len text.old + length (line self.now) ≤ MOST_BYTES }
        ensures { text.new.items ≡ text.old.items ++ line self.now };
}

// A node's prize.
impl PutLine for u64 {
    ghost line = { node_line };

    fn put_line(&self, text: &mut Text) {
        put(text, b"N\t");
        put_field(text, *self, b'\n');
    }
}

impl PutLine for Edge {
    ghost line = { line_of };

    fn put_line(&self, text: &mut Text) {
        put(text, b"S\t");
        put_field(text, self.first as u64, b'\t');
        put_field(text, self.second as u64, b'\t');
        put_field(text, self.cost, b'\t');
        put(text, self.code.text());
        text.push(b'\n');
    }
}

fn put_lines<L: PutLine>(text: &mut Text, lines: &[L])
    requires { array_vec_len text.old + length (flat_map L.line lines.now) ≤ MOST_BYTES }
    ensures { text.new.items ≡ text.old.items ++ flat_map L.line lines.now }
{
    for line in lines {
        line.put_line(text);
    }
}

// The sheet is written here first, so that nothing of the caller's list is touched where that is too short.
fn sheet_text(network: &Network) -> Text
    ensures { result.items ≡ sheet_of (net_of network.now) }
{
    let mut text = Text::new();
    put_lines(&mut text, network.prizes());
    put_lines(&mut text, network.edges());
    text
}

// Writes the network as a sheet to the front of the list: its length. A shorter list refuses, and nothing is written.
pub fn write_sheet(network: &Network, out: &mut [u8]) -> Result<usize, Refusal>
    ensures answer { result ≡ write_answer (net_of network.now) out.old }
    ensures after { out.new ≡ write_after (net_of network.now) out.old }
    ensures read_back { ReadAfterWrite (net_of network.now) }
    ensures longest { length (sheet_of (net_of network.now)) ≤ 34048 }
{
    let text = sheet_text(network);
    let len = text.len();
    if out.len() < len {
        return Err(Refusal::ListTooShort);
    }
    out[..len].copy_from_slice(text.as_slice());
    Ok(len)
}
