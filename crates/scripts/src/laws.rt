//! Lemmas about every text and every line of a script. The functions do nothing: a call gives its lemma to a proof.
ghost use Rattle.scripts.specs.Laws.{EachLineAsksOneThingOfATable, EachLineIsOneStep, EachTextHasItsLines};

/// Proves that each text has lines, and no others.
pub fn each_text_has_its_lines()
    ensures { EachTextHasItsLines }
{}

/// Proves that a line of a core's script encodes one step at most.
pub fn each_line_is_one_step()
    ensures { EachLineIsOneStep }
{}

/// Proves that a line of a table's script asks for one thing at most.
pub fn each_line_asks_one_thing_of_a_table()
    ensures { EachLineAsksOneThingOfATable }
{}
