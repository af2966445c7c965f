// The laws of the text layer: each stands in the contract of a function, so that the check asks for its proof.
#![tactic(auto)]

ghost use Rattle.sheet.specs.Laws.{TextLaw, FieldLaw, NumberLaw};

// A text reads as a sheet exactly when it is that sheet's text, and the sheet is one that a text can say.
pub fn one_text_stands()
    ensures { TextLaw }
{}

// A field holds a number exactly when it is that number's text in its columns.
pub fn one_field_text_stands()
    ensures { FieldLaw }
{}

// Ops and kinds have each their number, and each number is of at most one of them.
pub fn numbers_stand()
    ensures { NumberLaw }
{}
