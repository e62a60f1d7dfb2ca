//! From the list of a module to the list as the linker is handed it, step by step.

ghost use Rattle.std.specs.Prelude.{◌≡◌, ◌-◌, OnOk, IfOk, fold};
ghost use Rattle.gutsirava_sources.specs.Places as places;
ghost use Rattle.gutsirava_sources.specs.Rewritten as re;
ghost use Rattle.gutsirava_sources.specs.Rewritten.{source_of};
ghost use Rattle.gutsirava_sources.specs.Written.{added_all, written_of};

use crate::forms::{
    end_of_replacement, end_of_request, write_call, write_comment, write_load, write_loader,
    write_namespace, write_piece, write_replacement, write_run,
};
use crate::kind::SourceKind;
use crate::made::{FormNode, FormPart, MadeList};
use crate::outline::{SourceOutline, SourceRequest};
use crate::parts::{RequestPart, asks_at, asks_for, is_same, is_star};
use crate::pieces::{contains, end_of, field_of, is_meta, is_meta_url, is_prototype_key, node_at};
use crate::rewriter::{Rewriter, Substitute};
use crate::stand::{PartKeys, Stand};
use bundle_syntax::{Piece, Role};
use std::alloc::AllocError;

/// Puts down a module, in which these stand in the places of the requests of its outline.
pub(crate) fn write_module<'a>(
    made: &mut MadeList<'a>,
    pieces: &[Piece<'a>],
    outline: &SourceOutline<'_>,
    stands: &[Stand<'a>],
    it: &Rewriter<'_, 'a>,
) -> Result<(), AllocError>
    ensures { OnOk result (written_of made.new
        ≡ re.rewritten_on (source_of it.now pieces.now) outline.now stands.now
        (written_of made.old)) }
{
    let end = pieces.len().saturating_sub(1);
    let at = write_requests(made, pieces, outline.requests.as_slice(), stands, it)?;
    copy(made, pieces, at, end, it)?;
    made.set_no_origin();
    write_loads(made, stands, it)?;
    write_kind(made, outline.has_declarations, outline.names_common_js, it)?;
    copy(made, pieces, end, pieces.len(), it)
}

// Puts down each request with what stands in its place, and what lies before it. Gives the place behind the last.
#[tactic(auto, using(crate::proofs::Steps::requested_all_stop))]
fn write_requests<'a>(
    made: &mut MadeList<'a>,
    pieces: &[Piece<'a>],
    requests: &[SourceRequest<'_>],
    stands: &[Stand<'a>],
    it: &Rewriter<'_, 'a>,
) -> Result<usize, AllocError>
    ensures { IfOk result (λ place. (record { place = place; done = written_of made.new })
        ≡ re.requested_all (source_of it.now pieces.now) requests.now stands.now
        (record { place = 0; done = written_of made.old })) }
{
    let mut next = 0;
    for number in 0..requests.len() {
        if number >= stands.len() {
            break;
        }
        next = write_next(made, pieces, next, &requests[number], stands[number], it)?;
    }
    Ok(next)
}

// Puts down what lies before a request, from a place on, and the request. Gives the place behind it.
fn write_next<'a>(
    made: &mut MadeList<'a>,
    pieces: &[Piece<'a>],
    from: usize,
    request: &SourceRequest<'_>,
    stand: Stand<'a>,
    it: &Rewriter<'_, 'a>,
) -> Result<usize, AllocError>
    ensures place { IfOk result (λ place. place ≡ re.request_end request.now) }
    ensures done { OnOk result (written_of made.new
        ≡ re.requested (source_of it.now pieces.now) request.now stand.entry
        (re.told_to it.now.comments.now request.now.begin
        (re.copied (source_of it.now pieces.now) from request.now.begin
        (written_of made.old)))) }
{
    copy(made, pieces, from, request.begin, it)?;
    write_comments(made, request.begin, it)?;
    write_request(made, pieces, request, stand, it)?;
    Ok(end_of_request(request))
}

// Puts down the pieces from one place up to another.
#[tactic(auto, using(crate::proofs::Steps::copied_on_step))]
fn copy<'a>(
    made: &mut MadeList<'a>,
    pieces: &[Piece<'a>],
    from: usize,
    to: usize,
    it: &Rewriter<'_, 'a>,
) -> Result<(), AllocError>
    ensures { OnOk result (written_of made.new
        ≡ re.copied (source_of it.now pieces.now) from to (written_of made.old)) }
{
    let mut next = from;
    for at in from..to {
        next = put_next(made, pieces, at, next, it)?;
    }
    Ok(())
}

// Puts down what stands at a place, where that is not before the next one, and the comments before it. Gives the next.
fn put_next<'a>(
    made: &mut MadeList<'a>,
    pieces: &[Piece<'a>],
    at: usize,
    next: usize,
    it: &Rewriter<'_, 'a>,
) -> Result<usize, AllocError>
    ensures place { IfOk result (λ place.
        place ≡ re.next_if (source_of it.now pieces.now) at next) }
    ensures done { OnOk result (written_of made.new
        ≡ re.put_if (source_of it.now pieces.now) at next (written_of made.old)) }
{
    if at < next {
        return Ok(next);
    }
    write_comments(made, at, it)?;
    put(made, pieces, at, it)
}

// Puts down the comments that stand before the statement at a place.
fn write_comments<'a>(
    made: &mut MadeList<'a>,
    at: usize,
    it: &Rewriter<'_, 'a>,
) -> Result<(), AllocError>
    ensures { OnOk result (written_of made.new
        ≡ re.told_to it.now.comments.now at (written_of made.old)) }
{
    for number in made.told..it.comments.len() {
        let comment = it.comments[number];
        if comment.place > at {
            break;
        }
        made.set_no_origin();
        write_comment(made, comment.text)?;
        made.told = number + 1;
    }
    Ok(())
}

// What stands in the place of the node that begins at a place, if that is not the node itself.
#[tactic(auto, unfolding(crate::specs::Rewritten::replacement_at))]
fn replacement_at<'a>(
    pieces: &[Piece<'a>],
    at: usize,
    it: &Rewriter<'_, 'a>,
) -> Option<Substitute<'a>>
    ensures { result ≡ re.replacement_at (source_of it.now pieces.now) at }
{
    let seat = it.seat;
    if let Some(url) = seat.meta_url
        && is_meta_url(pieces, at)
    {
        return Some(Substitute::Url(url));
    }
    if seat.keeps_meta && is_meta(pieces, at) {
        return Some(Substitute::Meta);
    }
    if seat.is_main && contains(it.mains, at) {
        return Some(Substitute::Main);
    }
    if seat.is_data && is_prototype_key(pieces, at) {
        return Some(Substitute::Prototype);
    }
    None
}

// Puts down the piece at a place, or what stands for the node that begins there. Gives the place behind it.
fn put<'a>(
    made: &mut MadeList<'a>,
    pieces: &[Piece<'a>],
    at: usize,
    it: &Rewriter<'_, 'a>,
) -> Result<usize, AllocError>
    ensures place { IfOk result (λ place.
        place ≡ re.put_end (source_of it.now pieces.now) at) }
    ensures done { OnOk result (written_of made.new
        ≡ re.put (source_of it.now pieces.now) at (written_of made.old)) }
{
    made.set_origin(at);
    match replacement_at(pieces, at, it) {
        Some(replacement) => {
            let field = field_of(pieces, at);
            write_replacement(made, replacement, field)?;
            Ok(end_of_replacement(pieces, replacement, at))
        }
        None => {
            write_piece(made, pieces, at)?;
            Ok(at.saturating_add(1))
        }
    }
}

// Puts down a request.
fn write_request<'a>(
    made: &mut MadeList<'a>,
    pieces: &[Piece<'a>],
    request: &SourceRequest<'_>,
    stand: Stand<'a>,
    it: &Rewriter<'_, 'a>,
) -> Result<(), AllocError>
    ensures { OnOk result (written_of made.new
        ≡ re.requested (source_of it.now pieces.now) request.now stand.entry
        (written_of made.old)) }
{
    made.set_origin(request.begin);
    write_stand(made, pieces, request, stand, it)
}

// Puts down what stands in the place of a request.
fn write_stand<'a>(
    made: &mut MadeList<'a>,
    pieces: &[Piece<'a>],
    request: &SourceRequest<'_>,
    stand: Stand<'a>,
    it: &Rewriter<'_, 'a>,
) -> Result<(), AllocError>
    ensures { OnOk result (written_of made.new
        ≡ re.stood (source_of it.now pieces.now) request.now stand.entry
        (written_of made.old)) }
{
    let field = field_of(pieces, request.begin);
    match stand {
        Stand::Left(text) => write_specifier_text(made, pieces, request, text, it),
        Stand::Module(text) => write_specifier_text(made, pieces, request, text, it),
        Stand::Parts(keys) => write_parts(made, pieces, request, keys, it),
        Stand::Load(_, name) => write_call(made, field, name),
        Stand::Loader(key) => write_loader(made, field, key),
    }
}

// Puts down a request with this text as its specifier.
fn write_specifier_text<'a>(
    made: &mut MadeList<'a>,
    pieces: &[Piece<'a>],
    request: &SourceRequest<'_>,
    text: &'a str,
    it: &Rewriter<'_, 'a>,
) -> Result<(), AllocError>
    ensures { OnOk result (written_of made.new
        ≡ re.respecified (source_of it.now pieces.now) request.now text.now
        (written_of made.old)) }
{
    copy(made, pieces, request.begin, request.place, it)?;
    let field = field_of(pieces, request.place);
    made.add_all(&[FormPart::Text(field, text), FormPart::End])?;
    copy(made, pieces, request.behind, end_of_request(request), it)
}

// Puts down the declarations of the functions that stand in the place of `import()`.
fn write_loads<'a>(
    made: &mut MadeList<'a>,
    stands: &[Stand<'a>],
    it: &Rewriter<'_, 'a>,
) -> Result<(), AllocError>
    ensures { OnOk result (written_of made.new
        ≡ fold (re.loaded it.now.seat.notes.now) (written_of made.old) stands.now) }
{
    for stand in stands {
        write_load(made, it.seat.notes, *stand)?;
    }
    Ok(())
}

// Puts down a declaration by the parts that it asks for.
fn write_parts<'a>(
    made: &mut MadeList<'a>,
    pieces: &[Piece<'a>],
    request: &SourceRequest<'_>,
    keys: PartKeys<'a>,
    it: &Rewriter<'_, 'a>,
) -> Result<(), AllocError>
    ensures { OnOk result (written_of made.new
        ≡ re.parted (source_of it.now pieces.now) request.now keys.entry
        (written_of made.old)) }
{
    write_begin(made, pieces, request, keys, it)?;
    write_group(
        made,
        pieces,
        request,
        RequestPart::Namespace,
        keys.namespace,
        it,
    )?;
    write_group(
        made,
        pieces,
        request,
        RequestPart::Properties,
        keys.names,
        it,
    )?;
    write_group(made, pieces, request, RequestPart::Names, keys.names, it)?;
    write_star(made, pieces, request, keys, it)
}

// Puts down the default that a declaration asks for, or else a run of the module.
fn write_begin<'a>(
    made: &mut MadeList<'a>,
    pieces: &[Piece<'a>],
    request: &SourceRequest<'_>,
    keys: PartKeys<'a>,
    it: &Rewriter<'_, 'a>,
) -> Result<(), AllocError>
    ensures { OnOk result (written_of made.new
        ≡ re.begun (source_of it.now pieces.now) request.now keys.entry
        (written_of made.old)) }
{
    if asks_for(pieces, RequestPart::Default, request) {
        write_group(
            made,
            pieces,
            request,
            RequestPart::Default,
            keys.default,
            it,
        )
    } else {
        write_run(made, it.seat.notes, keys.run)
    }
}

// Puts down a declaration `export * from`, where it is one.
fn write_star<'a>(
    made: &mut MadeList<'a>,
    pieces: &[Piece<'a>],
    request: &SourceRequest<'_>,
    keys: PartKeys<'a>,
    it: &Rewriter<'_, 'a>,
) -> Result<(), AllocError>
    ensures { OnOk result (written_of made.new
        ≡ re.starred (source_of it.now pieces.now) request.now keys.entry
        (written_of made.old)) }
{
    if !is_star(node_at(pieces, request.begin)) {
        return Ok(());
    }
    copy(made, pieces, request.begin, request.place, it)?;
    made.add_all(&[FormPart::Text(0, keys.star), FormPart::End, FormPart::End])
}

// Puts down what a declaration asks for of one part, from the module of this key.
fn write_group<'a>(
    made: &mut MadeList<'a>,
    pieces: &[Piece<'a>],
    request: &SourceRequest<'_>,
    part: RequestPart,
    key: &'a str,
    it: &Rewriter<'_, 'a>,
) -> Result<(), AllocError>
    ensures { OnOk result (written_of made.new
        ≡ re.grouped (source_of it.now pieces.now) request.now part key.now
        (written_of made.old)) }
{
    if !asks_for(pieces, part, request) {
        return Ok(());
    }
    write_specifiers(made, pieces, request, part, it)?;
    made.add_all(&[FormPart::Text(1, key), FormPart::End, FormPart::End])
}

// Puts down the begin of a declaration, and its specifiers of one part.
#[tactic(auto, using(crate::proofs::Steps::specified_on_step))]
fn write_specifiers<'a>(
    made: &mut MadeList<'a>,
    pieces: &[Piece<'a>],
    request: &SourceRequest<'_>,
    part: RequestPart,
    it: &Rewriter<'_, 'a>,
) -> Result<(), AllocError>
    ensures { OnOk result (written_of made.new
        ≡ re.specified_on (source_of it.now pieces.now) part
        (request.now.place - request.now.begin)
        request.now.begin (re.copied (source_of it.now pieces.now) request.now.begin
        (places.behind request.now.begin 1) (written_of made.old))) }
{
    let begin = request.begin;
    let place = request.place;
    copy(made, pieces, begin, begin.saturating_add(1), it)?;
    for at in begin..place {
        write_asked(made, pieces, part, at, it)?;
    }
    Ok(())
}

// Puts down the specifier at a place, where it asks for this part.
fn write_asked<'a>(
    made: &mut MadeList<'a>,
    pieces: &[Piece<'a>],
    part: RequestPart,
    at: usize,
    it: &Rewriter<'_, 'a>,
) -> Result<(), AllocError>
    ensures { OnOk result (written_of made.new
        ≡ re.specified_if (source_of it.now pieces.now) part at (written_of made.old)) }
{
    if asks_at(pieces, part, at) {
        write_specifier(made, pieces, part, at, it)
    } else {
        Ok(())
    }
}

// Puts down the specifier at a place: that of a namespace as that of the name `namespace`.
fn write_specifier<'a>(
    made: &mut MadeList<'a>,
    pieces: &[Piece<'a>],
    part: RequestPart,
    at: usize,
    it: &Rewriter<'_, 'a>,
) -> Result<(), AllocError>
    ensures { OnOk result (written_of made.new
        ≡ re.specified (source_of it.now pieces.now) part at (written_of made.old)) }
{
    if is_same(part, RequestPart::Namespace) {
        write_namespace(made, pieces, at.saturating_add(1))
    } else {
        copy(made, pieces, at, end_of(pieces, at), it)
    }
}

// Makes the module one of its kind, where nothing in it tells.
fn write_kind<'a>(
    made: &mut MadeList<'a>,
    has_declarations: bool,
    names_common_js: bool,
    it: &Rewriter<'_, 'a>,
) -> Result<(), AllocError>
    ensures { OnOk result (written_of made.new
        ≡ added_all (written_of made.old) (re.kind_items it.now.seat.notes.now
        it.now.seat.kind
        has_declarations names_common_js)) }
{
    let meta = it.seat.notes;
    match it.seat.kind {
        SourceKind::EcmaScript => {
            if has_declarations {
                return Ok(());
            }
            made.add_all(&[FormPart::Begin(0, FormNode::Export(meta)), FormPart::End])
        }
        SourceKind::CommonJs => {
            if names_common_js {
                return Ok(());
            }
            made.add_all(&[
                FormPart::Begin(0, FormNode::Statement),
                FormPart::Name(0, "exports", Role::Reference),
                FormPart::End,
            ])
        }
    }
}
