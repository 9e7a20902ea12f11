//! VSETATTR.
ghost use Rattle.std.specs.Prelude.{◌≡◌, [], Some, IfOk, OnOk, OnErr};
ghost use Rattle.vs_defs.specs.Request as request;
ghost use Rattle.vs_thread_defs.specs.Machine.{StoreDoes};
ghost use Rattle.vs_command.specs.Outcomes.{outcome_of};
ghost use Rattle.vs_command.specs.Scores.{HasScores};
ghost use Rattle.vs_set.specs.Changed.{attributed};
ghost use Rattle.vs_set.specs.Kept.{IsSound};

use crate::Store;
use vs_command::{Answer, Refusal};
use vs_outside::{NoMemory, Text};
use vs_set::{Kept, Set};

/// Gives a member of a set the attribute of a text; the empty one takes it away.
fn give(set: &mut Set<Kept>, name: &[u8], text: Text) -> Result<(), NoMemory>
    ensures given { OnOk result (set.new ≡ attributed name.now (Some text) set.old) }
    ensures sound { OnOk result (IsSound set.new) }
    ensures err { OnErr result (set.new ≡ set.old) }
{
    set.set_attr(name, Some(text))?;
    let _count = set.count();
    Ok(())
}

impl Store {
    /// VSETATTR.
    pub(crate) fn set_attribute(
        &mut self,
        key: &[u8],
        name: &[u8],
        text: &Text,
    ) -> Result<Answer, Refusal>
        ensures does { StoreDoes self.old (request.Vsetattr key.now name.now text.now) [] (outcome_of result) self.new }
        ensures scores { IfOk result HasScores }
    {
        let Some(place) = self.place_with(key, name) else {
            return Ok(Answer::Int(0));
        };
        let number = self.next_number()?;
        let text = text.try_clone()?;
        give(&mut self.sets[place], name, text)?;
        self.changes = number;
        Ok(Answer::Int(1))
    }
}
