//! Laws of every line and of every queue. The functions compute nothing: their contracts are the laws.

ghost use Rattle.iiif_log.specs.Laws.{CountsAddUp, EscapesDiffer, LinesAreLines, LinesTellAnswers, QueuesKeepLines};
ghost use Rattle.iiif_log.specs.PeerLines.{PeerLinesAreLines, PeerLinesTellTurns};

/// So different targets are told apart.
pub fn escapes_differ()
    ensures { EscapesDiffer }
{}

/// So a line is one line, and its words are found at its spaces.
pub fn lines_are_lines()
    ensures { LinesAreLines }
{}

/// So a line tells the method, the target and the numbers of its answer.
pub fn lines_tell_answers()
    ensures { LinesTellAnswers }
{}

/// So a line of a link is one line, and is none of an answer, which has more words; and it tells the node's name and what became of the
/// link.
pub fn peer_lines_are_lines()
    ensures lines { PeerLinesAreLines }
    ensures turns { PeerLinesTellTurns }
{}

/// So each line that is put is taken once and in order, or counted where it is lost.
pub fn queues_keep_lines()
    ensures { QueuesKeepLines }
{}

/// So no line is missing that isn't counted.
pub fn counts_add_up()
    ensures { CountsAddUp }
{}
