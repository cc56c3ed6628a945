// Laws of the texts: each is a function that states one, does nothing and takes nothing.
ghost use Rattle.trace_tools.specs.Laws.{StatementsGoBack};
ghost use Rattle.trace_tools.specs.Examples.{WorkedStatementsHold};

use riscv_decode::words_go_round;

/// The assembler reads the statement of a word as the word's instruction, and makes the word of it again.
pub fn statements_go_back()
    ensures { StatementsGoBack }
{
    words_go_round();
}

/// Words whose lines were worked out by hand have those.
pub fn worked_statements_hold()
    ensures { WorkedStatementsHold }
{}
