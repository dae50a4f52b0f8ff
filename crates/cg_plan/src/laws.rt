//! Laws of what is written for a shell.
ghost use Rattle.cg_plan.specs.Shell.{TextsAreRead};
ghost use Rattle.cg_plan.specs.ShellWord.{WordsAreRead};

/// A shell reads each word that is written as its bytes, and nothing beside it.
pub fn words_are_read()
    ensures { WordsAreRead }
{}

/// In the text that is written for some commands a shell finds a line for each: the program and the folder, or the value and the file
/// that it is written into, each as one word.
pub fn texts_are_read()
    ensures { TextsAreRead }
{}
