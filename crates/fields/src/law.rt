// What lines and fields are.
ghost use Rattle.fields.specs.Laws.{FieldsJoin, FieldsAlone, LinesJoin, LinesAlone, NumbersExact};

// Carries what the definitions of lines and fields are shown to mean.
pub fn lines_and_fields_are_the_text() -> bool
    ensures fields_join { FieldsJoin }
    ensures fields_alone { FieldsAlone }
    ensures lines_join { LinesJoin }
    ensures lines_alone { LinesAlone }
    ensures numbers_exact { NumbersExact }
{
    true
}
