//! Laws of runs and of words. The functions compute nothing: each has a law as its contract.
ghost use Rattle.fax_tool.specs.laws.Words.{WordsHaveOneAnswer};
ghost use Rattle.fax_tool.specs.laws.Runs as Laws;
ghost use Rattle.fax_tool.specs.laws.OneText.{TextsAreOne};
ghost use Rattle.fax_tool.specs.laws.WordExamples.{AreNotTaken, AreSpellingsRead};

/// Runs of `rows`, all with `--long` or all without, the first from any cursor, with `--long` also
/// from a long cursor to which its strip's rows lead, and each later one from what is read of the
/// text that the run before it printed after `next `, write together a beginning of one run's lines
/// of rows, and all that it writes where the last of them was not cut by its limit. What a run that
/// was cut printed there is read as a cursor, or as a long one. The file is one that is not too
/// long to be read.
pub fn runs_go_on()
    ensures runs { Laws.RunsGoOn }
    ensures read { Laws.CutRunsAreReadOn }
{
    fax_walk::laws::beginnings_have_one_tail();
    fax_walk::laws::tails_go_on();
    fax_walk::laws::cursors_are_named();
}

/// What a command writes of a file is one text.
pub fn texts_are_one()
    ensures { TextsAreOne }
{
    fax_walk::laws::beginnings_have_one_tail();
    fax_walk::laws::form_tails_are_one();
    fax_walk::laws::answers_are_one();
    fax_walk::laws::files_are_salvaged_in_one_way();
    fax_walk::laws::salvaged_files_are_one();
    fax_walk::laws::tails_go_on();
}

/// The answers of `parse_words` exclude one another, and two jobs of the same words have the same
/// command and name the same file: so it gives each answer, but for want of memory, exactly where
/// its clause says.
pub fn words_have_one_answer()
    ensures { WordsHaveOneAnswer }
{
    fax_walk::laws::cursors_are_named();
}

/// What some words give, each option in each spelling, and some words that are not taken.
pub fn examples_of_words()
    ensures read { AreSpellingsRead }
    ensures not_taken { AreNotTaken }
{}
