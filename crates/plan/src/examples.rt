// Worked examples, and a law of what ranks send.
ghost use Rattle.plan.specs.Amounts.{PiecesAreLeft};
ghost use Rattle.plan.specs.Examples.{Examples};

// The worked examples of the two plans stand.
pub fn examples_stand() -> u8
    ensures { Examples }
{
    0
}

// The pieces that a rank sends to other members are what is left of its old span outside the new one.
pub fn pieces_are_left() -> u8
    ensures { PiecesAreLeft }
{
    0
}
