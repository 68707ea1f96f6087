// Laws of the words: the functions do nothing, and their contracts are the laws.
ghost use Rattle.ladr_words.specs.Worked.{WorkedLines, WorkedRefusals, StartSizeIsRead};

/// Some command lines worked out.
pub fn worked()
    ensures lines { WorkedLines }
    ensures refusals { WorkedRefusals }
{}

/// The first size that the words give is the number behind `-n`.
pub fn start_size_is_read()
    ensures { StartSizeIsRead }
{}
