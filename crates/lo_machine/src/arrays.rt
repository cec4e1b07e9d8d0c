// The requests on array variables alone. They need no transaction, and a rollback leaves them. (Manual, Arrays.)
ghost use Rattle.std.specs.Prelude.{◌≡◌, pos};
ghost use Rattle.lo_base.specs.declared.refusal.Cause.TheVariants.{NoVariable};
ghost use Rattle.lo_base.specs.declared.refusal.Denied.TheVariants.{By};
ghost use Rattle.row_tables.specs.Terms.{refusal};
ghost use Rattle.lo_machine.specs.ArrayRows.{array_line, elem_line, set_line, show_line};
ghost use Rattle.lo_machine.specs.Dispatch.{ReadsCall};
ghost use Rattle.lo_machine.specs.Server.{HasRows, IsServer};

use crate::server::Server;
use expanded_array::ArrayVar;
use lo_base::{Bytes, Cause, Denied, Name, Refusal, Reply, SessionNo, Word};

impl Server {
    /// `array`: a variable of that name gets the array that a text spells.
    pub(crate) fn make_array(
        &mut self,
        s: SessionNo,
        name: &Name,
        text: &[u8],
    ) -> Result<Reply, Denied>
        requires sound { IsServer self.old }
        requires rows { HasRows self.old }
        ensures { ReadsCall s (array_line name.now text.now) self.old self.new result }
    {
        let own = &mut self.variables[s.place()];
        match ArrayVar::from_text(self.alloc, text) {
            Ok(array) => match own.set(name, array) {
                Ok(()) => Ok(Reply::Word(Word::Ok)),
                Err(_) => Err(Denied::NoMemory),
            },
            Err(denied) => Err(denied),
        }
    }

    /// `set`: one element of a variable's array.
    pub(crate) fn set_element(
        &mut self,
        s: SessionNo,
        name: &Name,
        sub: i32,
        value: Option<i32>,
    ) -> Result<Reply, Denied>
        requires sound { IsServer self.old }
        requires rows { HasRows self.old }
        ensures { ReadsCall s (set_line name.now sub value) self.old self.new result }
    {
        match self.variables[s.place()].set_element(name, sub, value) {
            Ok(()) => Ok(Reply::Word(Word::Ok)),
            Err(denied) => Err(denied),
        }
    }

    /// `elem`: one element of a variable's array.
    pub(crate) fn element(&mut self, s: SessionNo, name: &Name, sub: i32) -> Result<Reply, Denied>
        requires sound { IsServer self.old }
        requires rows { HasRows self.old }
        ensures { ReadsCall s (elem_line name.now sub) self.old self.new result }
    {
        let Some(array) = self.variables[s.place()].get(name) else {
            return Err(no_variable());
        };
        match array.get(sub) {
            Some(element) => Ok(Reply::Number(i64::from(element))),
            None => Ok(Reply::Nothing),
        }
    }

    /// `show`: the text of a variable's array.
    pub(crate) fn show(&mut self, s: SessionNo, name: &Name) -> Result<Reply, Denied>
        requires sound { IsServer self.old }
        requires rows { HasRows self.old }
        ensures { ReadsCall s (show_line name.now) self.old self.new result }
    {
        let Some(array) = self.variables[s.place()].get(name) else {
            return Err(no_variable());
        };
        let mut text = Bytes::new(self.alloc);
        let Ok(()) = array.text(&mut text) else {
            return Err(Denied::NoMemory);
        };
        Ok(Reply::Text(text))
    }
}

/// The refusal of a variable that is not there.
pub(crate) fn no_variable() -> Denied
    ensures { result ≡ By (refusal NoVariable (pos 0)) }
{
    Denied::By(Refusal {
        cause: Cause::NoVariable,
        subject: 0,
    })
}
