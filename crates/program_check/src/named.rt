//! What has a name, and names that stand twice.

ghost use Rattle.std.specs.Prelude.{◌≡◌, ℕ, List, map};
ghost use Rattle.fast_syntax.specs.View.{plain_name};
ghost use Rattle.model_program.specs.Syntax as plain;
ghost use Rattle.model_checks.specs.Types.{repeated};
ghost use Rattle.program_check.specs.Notes.{HasMemory, Notes};
ghost use Rattle.program_check.specs.Naming.{place_in};
ghost use Rattle.program_check.specs.Numbered.{name_place};

use crate::checker::Checker;
use crate::names::Names;
use fast_fault::Code;
use fast_syntax::{CtorItem, FieldItem, Name};

/// What has a name.
pub(crate) trait Named {
    ghost name_of: { Self → plain.Name };

    fn name(&self) -> &Name
        ensures { plain_name result.now ≡ name_of self.now };
}

impl Named for Name {
    ghost use Rattle.fast_syntax.specs.View.{plain_name};

    ghost name_of = { plain_name };

    fn name(&self) -> &Name {
        self
    }
}

impl Named for FieldItem {
    ghost use Rattle.fast_syntax.specs.View.{plain_name};

    ghost name_of = { λ f. plain_name f.name };

    fn name(&self) -> &Name {
        &self.name
    }
}

impl Named for CtorItem {
    ghost use Rattle.fast_syntax.specs.View.{plain_name};

    ghost name_of = { λ c. plain_name c.name };

    fn name(&self) -> &Name {
        &self.name
    }
}

impl Checker {
    /// Notes each name that stood before. The names come back for look-ups.
    pub(crate) fn check_repeated<N: Named>(&mut self, code: Code, all: &[N]) -> Names
        ensures noted { Notes self.old self.new (repeated code (map N.name_of all.now)) }
        ensures places { HasMemory self.new → (text : List ℕ) → place_in result text ≡ name_place (map N.name_of all.now) text }
    {
        let mut names = Names::new(self.alloc);
        'all: for (place, one) in all.iter().enumerate() {
            let name = one.name();
            self.note_if(names.place(&name.text).is_some(), code, name.place);
            let added = names.add(self.alloc, &name.text, place);
            self.note_want(added);
        }
        names
    }
}
