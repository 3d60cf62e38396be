// What a reader of the format may rely on. Each function's promise is one law; it computes nothing.
ghost use Rattle.std.specs.Prelude.{ℕ, List};
ghost use Rattle.trace.specs.Streams.{CutsDoNotMatter};
ghost use Rattle.trace.specs.Laws.{NumbersHaveOneText, PartsAreBetweenSeparators, FaultsAreFirst, CallsReadBack};

// The decimal text of a number is read as that number, and no other text is.
#[tactic(auto, using(crate::proofs::OneText::numbers_have_one_text))]
pub fn numbers_have_one_text()
    ensures { NumbersHaveOneText }
{}

// The fields of a line hold no space, and with a space between each two they are the line again.
#[tactic(auto, using(crate::proofs::Parts::parts_are_between_separators))]
pub fn fields_are_between_spaces()
    ensures { PartsAreBetweenSeparators 32 }
{}

// A line that is read has no wrong field, and a fault is that of the first wrong field and names its place.
#[tactic(auto, using(crate::proofs::FirstFault::faults_are_first))]
pub fn faults_are_first()
    ensures { (text : List ℕ) → FaultsAreFirst text }
{}

// Every call, written out in the format, is read as that call.
#[tactic(auto, using(crate::proofs::ReadBack::calls_read_back))]
pub fn calls_read_back()
    ensures { CallsReadBack }
{}

// A trace that comes in chunks, wherever it is cut, is read line by line as the whole is.
#[tactic(auto, using(crate::proofs::Chunks::cuts_do_not_matter))]
pub fn cuts_do_not_matter()
    ensures { CutsDoNotMatter }
{}
