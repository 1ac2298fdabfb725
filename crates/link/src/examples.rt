// Statements about the trimmed form.
ghost use Rattle.link.specs.Examples.{Examples};
ghost use Rattle.link.specs.Trim.{ReadsBack};

// The worked examples of the trimmed form.
pub fn examples_stand() -> u8
    ensures { Examples }
{
    0
}

// What the layer sends reads back as the same words, and no other form does.
pub fn trim_reads_back() -> u8
    ensures { ReadsBack }
{
    0
}
