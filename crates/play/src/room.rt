// Text added piece by piece to what stands at the front of a buffer.
ghost use Rattle.std.specs.Prelude.{◌≡◌, ◌-◌, ◌≤◌, ◌++◌, length, take, decimal};
ghost use Rattle.std.specs.Fmt.{signed_decimal};

use crate::outcome::NoRoom;

// A caller's buffer, with the text in its first `used` bytes.
#[derive(Drop)]
pub(crate) struct Output<'a> {
    room: &'a mut [u8],
    used: usize,
    ghost fits: { used ≤ length room.now },
}

// No `fmt::Write` and `write!`: of a write that fails std says nothing, so that a refusal means too little room got no proof.
// That an output keeps its buffer is a clause of its own in each method, since it holds of a refusal too.
impl<'a> Output<'a> {
    ghost use Rattle.play.specs.Room.{SameBuffer, Adds};

    // No text yet.
    pub(crate) fn new(room: &'a mut [u8]) -> Output<'a>
        ensures same_buffer { result.room.ghost_name ≡ room.entry.ghost_name }
        ensures buffer { result.room.now ≡ room.old }
        ensures empty { result.used ≡ 0 }
    {
        Output { room, used: 0 }
    }

    // How long the text is.
    pub(crate) fn len(&self) -> usize
        ensures { result ≡ self.now.used }
    {
        self.used
    }

    // A text without numbers.
    pub(crate) fn put_text(&mut self, text: &[u8]) -> Result<(), NoRoom>
        ensures same_buffer { SameBuffer self.old self.new }
        ensures added { Adds text.now self.old result self.new }
    {
        if self.room.len() - self.used < text.len() {
            return Err(NoRoom);
        }
        let end = self.used + text.len();
        self.room[self.used..end].copy_from_slice(text);
        self.used = end;
        Ok(())
    }

    // A number in decimal.
    pub(crate) fn put_number(&mut self, number: u64) -> Result<(), NoRoom>
        ensures same_buffer { SameBuffer self.old self.new }
        ensures added { Adds (decimal number) self.old result self.new }
    {
        let digits = count_digits(number);
        if self.room.len() - self.used < digits {
            return Err(NoRoom);
        }
        let end = self.used + digits;
        put_digits(self.room, end, number);
        self.used = end;
        Ok(())
    }

    // A value with its sign.
    pub(crate) fn put_value(&mut self, value: i32) -> Result<(), NoRoom>
        ensures same_buffer { SameBuffer self.old self.new }
        ensures added { Adds (signed_decimal value) self.old result self.new }
    {
        if value < 0 {
            self.put_text(b"-")?;
        }
        self.put_number(u64::from(value.unsigned_abs()))
    }
}

// How many digits a number has.
#[tactic(auto, using(crate::proofs::Digits::digits_counted))]
fn count_digits(number: u64) -> usize
    ensures { result ≡ length (decimal number) }
{
    number.max(1).ilog10() as usize + 1
}

// Puts the digits of a number before a place, from the last to the first.
// By hand, as a line is short: itoa's `Buffer` or `write_digits` took 8 to 25 percent more time for it, a `for` over the places 4 percent more instructions.
fn put_digits(room: &mut [u8], end: usize, n: u64)
    requires digits { length (decimal n) ≤ end }
    requires room { end ≤ length room.old }
    ensures { take end room.new ≡ take (end - length (decimal n)) room.old ++ decimal n }
{
    let mut left = n;
    let mut at = end;
    while left >= 10 {
        at -= 1;
        room[at] = b'0' + (left % 10) as u8;
        left /= 10;
    }
    room[at - 1] = b'0' + left as u8;
}
