// What an open element has got of its content, and what one child or one run of character data more makes of it.
ghost use Rattle.std.specs.Prelude.{◌≡◌};
ghost use Rattle.journal_builder.specs.fillings.Fillings.{Declared, FillingOf};
ghost use Rattle.journal_builder.specs.journal_schema.Entries.{Sized};
ghost use Rattle.journal_builder.specs.journal_schema.Schemas.{KindsOf, ModelEnds, ModelsOf};
ghost use Rattle.journal_spec.specs.Builder.{Filling as Contained, filling_for, with_child, with_run, fits_at_end};
ghost use Rattle.schema_spec.specs.Schemas.{Schema};
ghost use Rattle.text.specs.lookup.Lookup.{found};

use crate::journal_schema::JournalSchema;
use models::Content;
use models::fitting::State;

#[derive(Clone, Copy)]
pub enum Filling {
    // an undeclared element, whose content is not judged
    Unjudged,
    // content that does not fit
    Misfit,
    // nothing, in an element declared EMPTY
    Unfilled,
    // only character data, in an element declared (#PCDATA)
    ByText(u8),
    // children so far, in an element with a model
    ByChildren(u8, State),
}

impl Filling {
    // Nothing yet, in the element e, or in an undeclared one.
    pub fn of(schema: &JournalSchema, e: Option<u8>) -> Filling
        ensures { (s : Schema) → KindsOf s schema.now → Declared s e → FillingOf s result (filling_for s (found e)) }
    {
        match e {
            None => Filling::Unjudged,
            Some(e) => match schema.content(e) {
                Content::Empty => Filling::Unfilled,
                Content::Pcdata => Filling::ByText(e),
                Content::Children(_) => Filling::ByChildren(e, State::Start),
            },
        }
    }

    // One child more: the element e, or one that is undeclared.
    pub fn with_child(self, schema: &JournalSchema, e: Option<u8>) -> Filling
        requires { Sized schema.now.compiled.now }
        ensures { (s : Schema) (x : Contained) → ModelsOf s schema.now → FillingOf s self x → FillingOf s result (with_child (found e) x) }
    {
        match self {
            Filling::Unjudged => Filling::Unjudged,
            Filling::ByChildren(own, state) => match e {
                Some(child) => Filling::ByChildren(own, schema.automaton(own).step(state, child)),
                None => Filling::Misfit,
            },
            _ => Filling::Misfit,
        }
    }

    // One run of character data more, which may be only blanks.
    pub fn with_run(self, blanks: bool) -> Filling
        ensures { (s : Schema) (x : Contained) → FillingOf s self x → FillingOf s result (with_run blanks x) }
    {
        match self {
            Filling::Unfilled => Filling::Misfit,
            Filling::ByChildren(_, _) if !blanks => Filling::Misfit,
            _ => self,
        }
    }

    // Whether the content may end here.
    pub fn fits_at_end(self, schema: &JournalSchema) -> bool
        ensures { (s : Schema) (x : Contained) → ModelEnds s schema.now → FillingOf s self x → result ≡ fits_at_end x }
    {
        match self {
            Filling::Misfit => false,
            Filling::ByChildren(e, state) => state.may_end(schema.ends(e)),
            _ => true,
        }
    }
}
