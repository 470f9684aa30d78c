// What is searched.
ghost use Rattle.std.specs.Prelude.{◌≡◌};
ghost use Rattle.definition.specs.Call.{leaves_in};

use sheet::Sheet;

// An accepted sheet, and how many leaves it has.
#[derive(Clone, Copy)]
pub struct Question<'a> {
    pub sheet: Sheet<'a>,
    pub leaves: u32,
    pub ghost counted: { leaves ≡ leaves_in sheet.bytes.now },
}
