// The first draws of a start.
#![tactic(auto)]

ghost use Rattle.std.specs.Prelude.{◌≡◌};
ghost use Rattle.model.specs.Practice.{drawn, practice_entry, practice_show};
ghost use Rattle.encoder.specs.Heads.{FieldsOf};

use encoder::Fields;

// What the first six draws of a start give, with the start and the state of the generator after them.
#[derive(Clone, Copy)]
pub struct FirstDraws {
    pub start: u32,
    pub fields: Fields,
    pub first_entry: u32,
    pub state: u32,
    ghost fields_are: { FieldsOf (practice_show start) fields },
    ghost first_is: { first_entry ≡ practice_entry start 0 },
    ghost state_is: { state ≡ drawn start 6 },
}
