//! What holds of every body, in one sentence each. Nothing is computed here: a law is a function's
//! contract, so that the check proves it.
ghost use Rattle.std.specs.Prelude.{◌≡◌, ◌↔◌, ℕ, List, None, Some, IsTrue, decimal};
ghost use Rattle.std.specs.List.{All};
ghost use Rattle.fix_fields.specs.declared.field.Field.{Field};
ghost use Rattle.fix_fields.specs.Forms.{tag_form};
ghost use Rattle.fix_fields.specs.Grammar.{IsTag, TagValue, Fields, IsUnreadable, LacksType, begins_with_type, bytes_of};
ghost use Rattle.fix_fields.specs.Ordinary.{AreOrdinary};
ghost use Rattle.fix_fields.specs.Ranges.{AreFieldsOf, HasRangeIn};

/// A body has one list of fields.
pub fn one_list_of_fields()
    ensures { (body : List ℕ) (fs gs : List TagValue)
        → Fields body fs → Fields body gs → fs ≡ gs }
{}

/// A body gets one answer: it is fields, or it is unreadable from one byte on, or it lacks the
/// type, and never two of these.
pub fn one_answer_for_a_body()
    ensures place { (body : List ℕ) (m n : ℕ)
        → IsUnreadable body m → IsUnreadable body n → m ≡ n }
    ensures readable { (body : List ℕ) (fs : List TagValue) (n : ℕ)
        → Fields body fs → ¬ IsUnreadable body n }
    ensures typed { (body : List ℕ) (fs : List TagValue) → Fields body fs → ¬ LacksType body }
    ensures untyped { (body : List ℕ) (n : ℕ) → LacksType body → ¬ IsUnreadable body n }
{}

/// The ranges of a body's fields lie within the body.
pub fn ranges_lie_within_the_body()
    ensures { (body : List ℕ) (fields : List Field)
        → AreFieldsOf body fields → All (λ f. HasRangeIn body f) fields }
{}

/// What `write_field` writes field by field is a body of these fields, where the first is the
/// message type and no two that follow one another are a length field and its data field.
pub fn written_fields_are_read()
    ensures { (fs : List TagValue) → AreOrdinary None fs → IsTrue (begins_with_type fs)
        → Fields (bytes_of fs) fs }
{}

/// The texts of 1 to 9 digits without a leading zero are just the decimal texts of the tags.
pub fn tags_are_decimal()
    ensures { (text : List ℕ) (tag : ℕ)
        → (tag_form text ≡ Some tag) ↔ ((text ≡ decimal tag) × IsTag tag) }
{}
