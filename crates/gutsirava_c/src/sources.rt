//! Source texts to bundles.

ghost use Rattle.std.specs.Prelude.{ℕ, List, string_bytes, IfErr, IfOk};
ghost use Rattle.gutsirava_c.specs.Answer.{IsHandedOver};
ghost use Rattle.gutsirava_c.specs.Request.{IsNoRequest, RefusesOf};
ghost use Rattle.gutsirava_c.specs.Sources.{IsReplyTo, IsSourcesReply};

use crate::bundled::bundled_text;
use crate::memory::MemoryFiles;
use crate::reply::Reply;
use crate::request::SourcesRequest;
use crate::room::hand_over;
use bundle_json_form::FormError;
use gutsirava_bundle::{ProgressListener, bundle_entries};
use gutsirava_resolve::Resolver;
use std::alloc::{AllocError, Global};

/// What is told of want of memory.
const NO_MEMORY: &str =
    "{\"bundles\":[],\"messages\":[{\"column\":null,\"file\":null,\"line\":null,\
    \"notes\":[],\"severity\":\"error\",\"text\":\"out of memory\"}]}\n";

/// Bundles source texts that are held in memory, as the command bundles files: CommonJS, JSON and packages too. The answer
/// has the status 0 and is an object with the bundles and what is told of them; or 1, where an error is told, and then there
/// is no bundle; or 2 for an input of another form.
#[unsafe(no_mangle)]
pub extern "C" fn gutsirava_bundle_sources(
    alloc: Global,
    input: &[u8],
    output: &mut [u8],
    written: &mut usize,
) -> u32
    ensures { (status : ℕ) × (answer : List ℕ)
        × IsSourcesReply input.now status answer
        × IsHandedOver status answer result written.new output.old output.new }
{
    match reply_to(alloc, input) {
        Ok(reply) => hand_over(reply.status, reply.text.as_str(), output, written),
        Err(FormError::Form) => hand_over(2, "error: document\n", output, written),
        Err(FormError::OutOfMemory) => hand_over(1, NO_MEMORY, output, written),
    }
}

// The reply to a request. Refused where it is of another form, and for memory.
fn reply_to(alloc: Global, input: &[u8]) -> Result<Reply, FormError>
    ensures told { IfOk result (λ reply.
        IsSourcesReply input.now reply.status (string_bytes reply.text)) }
    ensures refused { IfErr result (RefusesOf (IsNoRequest input.now)) }
{
    let Ok(text) = str::from_utf8(input) else {
        return Err(FormError::Form);
    };
    let request = SourcesRequest::read(alloc, text)?;
    let reply = answered(alloc, request)?;
    Ok(reply)
}

// The reply to what is asked for.
fn answered(alloc: Global, request: SourcesRequest) -> Result<Reply, AllocError>
    ensures { IfOk result (λ reply.
        IsReplyTo request.settings request.entries.items reply.status (string_bytes reply.text)) }
{
    let SourcesRequest {
        texts,
        entries,
        settings,
        resolution,
    } = request;
    let files = MemoryFiles {
        alloc,
        texts: &texts,
    };
    let resolver = Resolver::new(alloc, files, resolution);
    let bundled = bundle_entries(alloc, files, resolver, entries, &settings, &mut Unheard)?;
    let text = bundled_text(alloc, &bundled)?;
    if bundled.messages.errors > 0 {
        return Ok(Reply { status: 1, text });
    }
    Ok(Reply { status: 0, text })
}

/// How far a call is, nobody is told.
#[derive(Drop)]
struct Unheard;

impl ProgressListener for Unheard {
    fn has_found(&mut self, _modules: usize) {}

    fn begins_to_link(&mut self) {}
}
