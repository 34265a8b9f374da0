// What follows from the definitions.
ghost use Rattle.std.specs.Prelude.{◌≡◌, ℕ, ◌+◌, ◌<◌, ◌++◌, List, [], length, take, Option, Some, None};
ghost use Rattle.std.specs.List.{All};
ghost use Rattle.record_io.specs.declared.answers.Answer.{Answer};
ghost use Rattle.record_io.specs.declared.answers.TheConstants.{ANSWER_HEADER};
ghost use Rattle.record_io.specs.Answers.{Cut, IsAnswer, ShowsAnswers, answer_octets, answers_octets, header_of};
ghost use Rattle.record_io.specs.Input.{Item, InputEnd, IsInput};
ghost use Rattle.record_io.specs.Reading.{SourceSeen, IsReading, first_standing};

/// Law: an input has one list of items and one end.
pub fn input_reads_once()
    ensures { (input : List ℕ) (xs ys : List Item) (e f : InputEnd)
        → IsInput input xs e → IsInput input ys f → (xs ≡ ys) × (e ≡ f) }
{}

/// Law: before the first call of `next_segment` nothing was read, from wherever the source stands.
pub fn begins_reading()
    ensures { (start : SourceSeen) → IsReading start start first_standing [] [] }
{}

/// Law: octets show one list of answers, and one cut answer at most behind them.
pub fn answers_shown_once()
    ensures { (octets : List ℕ) (xs ys : List Answer) (c d : Option Cut)
        → ShowsAnswers octets xs c → ShowsAnswers octets ys d → (xs ≡ ys) × (c ≡ d) }
{}

/// Law: the octets of answers show these, and where they are cut in the body of another, that one as far as they go.
pub fn answers_are_shown()
    ensures whole { (answers : List Answer) → All IsAnswer answers
        → ShowsAnswers (answers_octets answers) answers None }
    ensures cut { (answers : List Answer) (last : Answer) (n : ℕ) → All IsAnswer answers → IsAnswer last
        → n < length last.body
        → ShowsAnswers (answers_octets answers ++ take (ANSWER_HEADER + n) (answer_octets last)) answers
        (Some (record { header = header_of last; front = take n last.body })) }
{}
