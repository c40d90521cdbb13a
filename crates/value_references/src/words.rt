// The words of the four families: sample, assay, study variable and run, numbered from 0.
ghost use Rattle.std.specs.Prelude.{◌≡◌};
ghost use Rattle.value_references.specs.References.{family, words as all_words};

// Where in the text of the words each begins, and where that ends.
const SAMPLE: usize = 0;

const ASSAY: usize = 6;

const VARIABLE: usize = 11;

const RUN: usize = 25;

const END: usize = 31;

// The words, one after the other.
pub fn words() -> [u8; END]
    ensures { result ≡ all_words }
{
    *b"sampleassaystudy_variablems_run"
}

// Of these the word of family f; none for what is no family.
pub fn word<'a>(text: &'a [u8], f: usize) -> &'a [u8]
    requires { text.now ≡ all_words }
    ensures { result.now ≡ family f }
{
    match f {
        0 => &text[SAMPLE..ASSAY],
        1 => &text[ASSAY..VARIABLE],
        2 => &text[VARIABLE..RUN],
        3 => &text[RUN..END],
        _ => &text[END..],
    }
}
