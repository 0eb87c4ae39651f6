//! The law of files without macros, as the contract of a function that does nothing.
ghost use Rattle.rr_plain_files.specs.Laws.{PlainKeepsAll, PlainPrints, PlainTokensLift, PlainWithout};

/// In a file without uses and without directives but those that stay, of which no attribute holds `//`,
/// `/*`, `\` or a backtick, a text can be put behind each token, and each number can be replaced. A file
/// without a backtick in which no attribute begins is such.
pub fn plain_files_lift()
    ensures tokens { PlainTokensLift }
    ensures plain { PlainWithout }
{}

/// Such a file is its own expansion, and none of its sites is left out of those that can be changed in it.
pub fn plain_files_keep_all()
    ensures { PlainKeepsAll }
{}

/// A choice is printed into such a file of at most 1,048,576 bytes as into a text.
pub fn plain_files_print()
    ensures { PlainPrints }
{}
