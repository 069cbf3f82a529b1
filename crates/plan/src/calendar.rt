// A calendar in memory, and the code of one of its hours. (In a file of their own, since the file of a ghost field may name no definition that names
// the struct.)
ghost use Rattle.std.specs.Prelude.{ℕ, ◌≡◌, ◌≤◌, ◌<◌, length};
ghost use Rattle.plan.specs.Packed.{bytes_of, code_at};

use units::Duration;

// A calendar that has passed the tests: its bytes, four hours each, and how many hours they hold. Each hour's code is that of a kind.
#[derive(Clone, Copy)]
pub struct Calendar<'a> {
    pub bytes: &'a [u8],
    pub hours: Duration,
    pub ghost packed: { (length bytes.now ≡ bytes_of hours.0) × ((t : ℕ) → t < hours.0 → code_at bytes.now t ≤ 2) },
}

// The code of an hour: 0 closed, 1 regular, 2 overtime.
#[derive(Clone, Copy)]
pub struct HourCode {
    pub number: u8,
    pub ghost kind: { number ≤ 2 },
}
