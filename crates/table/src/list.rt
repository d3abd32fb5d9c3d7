// Lists of variables: their checks, their reads, and the reply buffer that takes the values.
ghost use Rattle.std.specs.Prelude.{◌≡◌, ◌≤◌, length, replicate, pos};
ghost use Rattle.std.proofs.Math.Option.{none as nothing};
ghost use Rattle.history.specs.Answers.{first_wrong, wrong_list, longest_list};
ghost use Rattle.table.specs.Checks.{passed};
ghost use Rattle.table.specs.Collect.{Leaves, ReadsList};

use crate::answer::Collected;
use crate::checks::check_task;
use crate::fault::{Place, TableFault};
use crate::number::{Task, Variable};
use crate::table::Table;
use policy::{Policy, VARIABLES};

// How long a list of variables may be.
pub const LONGEST_LIST: usize = 16;

// Clears a reply buffer.
pub(crate) fn clear(reply: &mut [i32])
    ensures { reply.new ≡ replicate (length reply.old) (pos 0) }
{
    reply.fill(0);
}

// Whether a list names variables only. A match: with `map_or` and a closure the answer below got no proof.
// `as` and no try_from: a place is below 16, and the fault could come in no call.
fn check_variables(list: &[u8]) -> Result<(), TableFault>
    requires { length list.now ≤ longest_list }
    ensures { result ≡ passed tt (first_wrong 0 list.now) nothing }
{
    match list
        .iter()
        .position(|variable| usize::from(*variable) >= VARIABLES)
    {
        Some(place) => Err(TableFault::NoVariable(Place::Listed(place as u8))),
        None => Ok(()),
    }
}

// The task of this number, if there is one, and its list and its reply buffer are right.
pub(crate) fn check_list(task: u8, list: &[u8], room: usize) -> Result<Task, TableFault>
    ensures { result ≡ passed task (wrong_list task list.now room) nothing }
{
    let task = check_task(task)?;
    if list.is_empty() || list.len() > LONGEST_LIST {
        return Err(TableFault::ListLength);
    }
    if room < list.len() {
        return Err(TableFault::ShortBuffer);
    }
    check_variables(list)?;
    Ok(task)
}

impl<P: Policy> Table<P> {
    // Reads a list of variables, in order, into the front of a reply buffer. A refusal clears the buffer.
    pub(crate) fn read_list(
        &mut self,
        task: Task,
        list: &[u8],
        reply: &mut [i32],
    ) -> Result<Collected, TableFault>
        requires short { length list.now ≤ longest_list }
        requires room { length list.now ≤ length reply.old }
        requires named { first_wrong 0 list.now ≡ nothing }
        ensures reads { ReadsList P.Policy task list.now self.old self.new.policy reply.new result }
        ensures leaves { Leaves list.now reply.old reply.new result }
        ensures stages { self.new.stages ≡ self.old.stages }
        ensures shared { self.new.shared ≡ self.old.shared }
    {
        // `as` here too: a list is short
        for (place, variable) in list.iter().enumerate() {
            let variable = Variable { value: *variable };
            let value = self.look(task, variable);
            // a match, since an error clears the buffer
            match self.policy.read(u8::from(task), u8::from(variable)) {
                Ok(_) => reply[place] = value,
                Err(fault) => {
                    clear(reply);
                    return Err(TableFault::Refused(Place::Listed(place as u8), fault));
                }
            }
        }
        Ok(Collected { reads: list.len() })
    }
}
