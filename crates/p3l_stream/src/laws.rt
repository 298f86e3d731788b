// The law of a stream that is read again and again, as the contract of a function that does
// nothing.

ghost use Rattle.std.specs.Prelude.{◌≡◌, ◌≤◌, ℕ, ℤ, List, [], ◌++◌, None, Ok, Result, length};
ghost use Rattle.p3l_base.specs.declared.NoMemory.{NoMemory};
ghost use Rattle.p3l_io.specs.Change.{Change};
ghost use Rattle.p3l_stream.specs.Answers.{Answers};
ghost use Rattle.p3l_stream.specs.Given.{HasGiven, items_in};
ghost use Rattle.p3l_stream.specs.Seen.{Answer, Seen, closed_by, started};

/// A stream answers the items of the bytes that it takes, in their order, and then how they end,
/// however the bytes were cut into pieces.
pub fn a_stream_gives_its_items()
    ensures starts { (width limit : ℕ) → HasGiven width (started width limit) [] [] }
    ensures answers { (width : ℕ) (old new : Seen) (source : Change (List ℕ)) (bytes : List ℕ)
        (items : List (List ℤ)) (result : Result Answer NoMemory)
        → HasGiven width old bytes items → old.closed ≡ None → new.closed ≡ closed_by result
        → (answers : Answers old new source result)
        → HasGiven width new (bytes ++ answers.got) (items ++ items_in result) }
    ensures wide { (old new : Seen) (source : Change (List ℕ)) (words : List ℤ)
        → Answers old new source (Ok (Ok words)) → length words ≡ old.words }
{}
