// A calendar's symbols, packed four hours a byte.
ghost use Rattle.std.specs.Prelude.{[], ◌∷◌, ◌≡◌, ◌+◌, ◌*◌, ◌≤◌, ◌<◌, length, get_or};
ghost use Rattle.plan.specs.Packed.{bytes_of, code_of, byte_at, packed};
ghost use Rattle.plan.specs.HourKinds.{is_symbol};
ghost use Rattle.plan_format.specs.Text.{most_line};

use plan::PER_BYTE;

// Whether a byte is the symbol of a kind.
#[tactic(auto, unfolding(plan::specs::HourKinds::is_symbol, plan::specs::HourKinds::is_kind), using(std::proofs::lemmas::Bool::Decides::nat_tests))]
pub fn is_symbol(symbol: u8) -> bool
    ensures { result ≡ is_symbol (symbol ∷ []) 0 }
{
    symbol == b'r' || symbol == b'c' || symbol == b'o'
}

// How many bytes hold a calendar.
#[tactic(auto, unfolding(plan::specs::Packed::bytes_of))]
pub fn packed_length(calendar: &[u8]) -> usize
    requires { length calendar.now ≤ most_line }
    ensures { (result ≡ bytes_of (length calendar.now)) × (result ≤ length calendar.now) }
{
    (calendar.len() + PER_BYTE - 1) / PER_BYTE
}

// The code of an hour, by its symbol; 0 of a byte that is none.
#[tactic(auto, unfolding(plan::specs::Packed::code_of))]
fn code_of(symbol: u8) -> u8
    ensures { (result ≡ code_of symbol) × (result ≤ 2) }
{
    if symbol == b'r' {
        1
    } else if symbol == b'o' {
        2
    } else {
        0
    }
}

// The byte of four hours, the first in its lowest bits.
fn byte_of(first: u8, second: u8, third: u8, fourth: u8) -> u8
    ensures { result ≡ code_of first + 4 * code_of second + 16 * code_of third + 64 * code_of fourth }
{
    code_of(first) + 4 * code_of(second) + 16 * code_of(third) + 64 * code_of(fourth)
}

// A calendar's symbol, or 0 past the last.
fn symbol_at(calendar: &[u8], t: usize) -> u8
    ensures { result ≡ get_or calendar.now t 0 }
{
    if t < calendar.len() { calendar[t] } else { 0 }
}

// Puts a calendar's bytes. The last may have fewer than four hours.
pub fn pack(calendar: &[u8], out: &mut [u8])
    requires { (length out.old ≡ bytes_of (length calendar.now)) × (length calendar.now ≤ most_line) }
    ensures { out.new ≡ packed calendar.now }
{
    let whole = calendar.len() / PER_BYTE;
    for i in 0..whole {
        let at = PER_BYTE * i;
        out[i] = byte_of(
            calendar[at],
            calendar[at + 1],
            calendar[at + 2],
            calendar[at + 3],
        );
    }
    if whole < out.len() {
        let at = PER_BYTE * whole;
        out[whole] = byte_of(
            symbol_at(calendar, at),
            symbol_at(calendar, at + 1),
            symbol_at(calendar, at + 2),
            symbol_at(calendar, at + 3),
        );
    }
}
