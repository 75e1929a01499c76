//! Laws of connections and of answers. The functions compute nothing: their contracts are the laws, beside those of `serve_stream` and
//! `serve_one` of `iiif_server`.

ghost use Rattle.iiif_answers.specs.Devices.{WholeOverHonestDevices};
ghost use Rattle.iiif_answers.specs.Laws.{AllowedIsFramed, FieldsArePlain, HeadsReadBack, NoSilence};

use iiif_http_front::laws::written_head_reads_back;
use iiif_io::{Inlet, Outlet};
use iiif_keys::System;
use iiif_request::laws::{asked_once, says_once};
use iiif_source::Source;

/// So a server's `serve_stream` never lets a call go without a byte of an answer, where the writer doesn't fail.
pub fn calls_are_not_passed_over<R, S: Source<R>, J: System, I: Inlet, W: Outlet>()
    ensures { (last : W) → NoSilence S.bytes S.keeps J.honest S.gave ((before after : I) × I.fails before after)
        ((before : W) × W.fails before last) }
{}

/// So each answer of a connection is framed, whatever the sources' reads give, as what may be sent for a call is.
pub fn allowed_is_framed<R, S: Source<R>, J: System, W: Outlet>()
    ensures { (last : W) → AllowedIsFramed S.bytes S.keeps J.honest S.gave ((before : W) × W.fails before last) }
{}

/// So no field of an answer is split, and no body is taken for a field.
pub fn fields_are_plain<R, S: Source<R>>()
    ensures { FieldsArePlain S }
{}

/// So each head that is sent is read as it was meant.
pub fn heads_read_back<R, S: Source<R>>()
    ensures { HeadsReadBack S }
{
    // A law of heads.
    written_head_reads_back();
}

/// So where the source of an accepted image gave no fault and the writer didn't fail, the image is sent whole; or, for lack of memory,
/// that is answered or the image is cut off. Nothing else takes its place.
pub fn whole_over_honest_devices<R, S: Source<R>, J: System, W: Outlet>()
    ensures { (last : W) → WholeOverHonestDevices S.bytes S.keeps J.honest S.gave ((before : W) × W.fails before last) }
{
    // Laws of requests: each text is asked, and says, one thing.
    asked_once();
    says_once();
}
