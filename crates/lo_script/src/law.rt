ghost use Rattle.std.specs.Prelude.{◌≡◌, ◌≤◌, ◌↔◌, ℕ, ℤ, Bool, List, Some};
ghost use Rattle.std.specs.Fmt.{signed_decimal};
ghost use Rattle.std.specs.List.{AllByRecursion};
ghost use Rattle.lo_base.specs.declared.request.Request.{Request};
ghost use Rattle.lo_machine.specs.Spelled.{IsSpelled};
ghost use Rattle.lo_machine.specs.State.{State};
ghost use Rattle.lo_machine.specs.Step.{reply_to};
ghost use Rattle.lo_script.specs.Form.{request_of};
ghost use Rattle.lo_script.specs.Reading.{Read};
ghost use Rattle.lo_script.specs.ReplyText.{text_of, IsOneLine};
ghost use Rattle.lo_script.specs.Script.{HasProgramText, HasText, IsFinished};
ghost use Rattle.lo_script.specs.SpelledValues.{IsInt8};
ghost use Rattle.lo_script.specs.Spelling.{SpellsServed, HasRanges, HasSpelling, IsWritable};
ghost use Rattle.lo_script.specs.SweepForm.{is_of_sweep};
ghost use Rattle.lo_script.specs.Token.{TokenList, int8_of};

/// Laws of the grammar: a token spells the number that prints as it, and tokens spell the request
/// whose printed form they are, inside a clean-up or outside, where that request stands. Each request can be spelled, and
/// each program whose clean-ups have their finish is spelled by a text, with marks and without.
pub fn tokens_spell()
    ensures printed { (t : List ℕ) (n : ℤ) → int8_of t ≡ Some n → t ≡ signed_decimal n }
    ensures read { (n : ℤ) → IsInt8 n → int8_of (signed_decimal n) ≡ Some n }
    ensures spelled { (in_sweep : Bool) (column : ℕ) (ts : TokenList) (r : Request) →
        request_of in_sweep column ts ≡ Read r → IsSpelled r }
    ensures exact { (in_sweep : Bool) (column : ℕ) (ts : TokenList) (r : Request) →
        (request_of in_sweep column ts ≡ Read r)
        ↔ ((is_of_sweep r ≡ in_sweep) × SpellsServed r ts) }
    ensures printable { (r : Request) → IsSpelled r → HasRanges r → HasSpelling r }
    ensures written { (s : ℕ) (program : List Request) → 1 ≤ s → s ≤ 16 →
        AllByRecursion IsWritable program → IsFinished program → HasText s program }
    ensures unmarked { (program : List Request) →
        AllByRecursion IsWritable program → IsFinished program → HasProgramText program }
{}

/// Law of replies: the text of a reply holds no line feed, whatever state and request it is of, so each
/// reply is one line.
pub fn replies_are_lines()
    ensures { (st : State) (session : ℕ) (request : Request) →
        IsOneLine (text_of (reply_to st session request)) }
{}
