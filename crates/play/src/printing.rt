// What is printed of a line.
ghost use Rattle.play.specs.Room.{SameBuffer, Adds, Within};
ghost use Rattle.play.specs.Printed.{printed, reply_text, longest_reply, longest_line};

use crate::outcome::{NoRoom, Outcome};
use crate::room::Output;
use refusal::Refusal;
use schedule::fault::TextFault;
use table::fault::TableFault;

// What a line came to: what its command told, or the text's fault.
pub(crate) type Reply = Result<Outcome, TextFault<TableFault>>;

impl Output<'_> {
    #[tactic(auto, using(crate::proofs::Lengths::value_short, crate::proofs::Lengths::refused_short))]
    fn put_reply(&mut self, reply: Reply) -> Result<(), NoRoom>
        ensures same_buffer { SameBuffer self.old self.new }
        ensures added { Adds (reply_text reply) self.old result self.new }
        ensures within { Within longest_reply self.old result self.new }
    {
        match reply {
            Ok(Outcome::Done) => self.put_text(b" ok"),
            Ok(Outcome::Value(value)) => {
                self.put_text(b" = ")?;
                self.put_value(value)
            }
            Err(fault) => {
                self.put_text(b" no ")?;
                self.put_number(u64::from(fault.number()))
            }
        }
    }

    // The line's number, what it came to, and LF.
    #[tactic(auto, using(crate::proofs::Lengths::number_short))]
    pub(crate) fn put_line(&mut self, line: usize, reply: Reply) -> Result<(), NoRoom>
        ensures same_buffer { SameBuffer self.old self.new }
        ensures added { Adds (printed line (reply_text reply)) self.old result self.new }
        ensures within { Within longest_line self.old result self.new }
    {
        self.put_number(line as u64)?;
        self.put_reply(reply)?;
        self.put_text(b"\n")
    }
}
