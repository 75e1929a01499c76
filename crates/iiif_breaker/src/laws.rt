//! Laws of every link, whatever comes. The functions compute nothing: their contracts are the laws.

ghost use Rattle.iiif_breaker.specs.Laws.{HasPeriod, IsAskedAgain, IsAskedOnceAPeriod, IsClosedByAnAnswer, IsLeftAlone};
ghost use Rattle.iiif_breaker.specs.Laws.{IsLeftAloneByALook, IsNeverClosedByALook, IsUnmovedAfterALook, IsUnmovedByLateFaults};

/// So no link is left alone for ever: whatever came, it is asked again at the latest a minute after the last failure, the last ask
/// and the last look in vain.
pub fn is_asked_again()
    ensures { IsAskedAgain }
{}

/// So a node that doesn't answer is asked by one, and by no other for a second at least, and a minute at most.
pub fn is_asked_once_a_period()
    ensures once { IsAskedOnceAPeriod }
    ensures period { HasPeriod }
{}

/// So a node that answers is asked by all again, however long it was left alone.
pub fn is_closed_by_an_answer()
    ensures { IsClosedByAnAnswer }
{}

/// So a node that hangs is asked no more for a second.
pub fn is_left_alone()
    ensures { IsLeftAlone }
{}

/// So a node that a look found silent is asked no more for a second, unless an ask that was under way is answered; and a look asks no node
/// again that failed.
pub fn is_left_alone_by_a_look()
    ensures left { IsLeftAloneByALook }
    ensures never { IsNeverClosedByALook }
{}

/// So of many who wait for a node that hangs the first who gives up opens the link, or a look does, and the others don't put the next ask
/// off.
pub fn is_unmoved_by_late_faults()
    ensures fault { IsUnmovedByLateFaults }
    ensures look { IsUnmovedAfterALook }
{}
