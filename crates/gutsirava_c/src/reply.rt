//! What is replied to a document.

ghost use Rattle.std.specs.Prelude.{◌≡◌, ◌⊎◌, string_bytes, IfErr, IfOk};
ghost use Rattle.bundle_json_document.specs.Answer.{IsDocumentAnswer, IsDocumentRefusal};
ghost use Rattle.bundle_json_document.specs.Program.{fails_nowhere, may_list};
ghost use Rattle.gutsirava_c.specs.Answer.{IsAnswer};

use crate::refusal::refusal_text;
use bundle_json_document::{Document, DocumentError, MetaHook, answer_text, parse_document};
use bundle_tree_names::error::Error;
use std::alloc::{AllocError, Global};

/// A status and a text.
#[derive(Drop)]
pub(crate) struct Reply {
    pub(crate) status: u8,
    pub(crate) text: String,
}

/// The reply to a document. Refused where memory for its text is.
pub(crate) fn reply_to(alloc: Global, input: &[u8]) -> Result<Reply, AllocError>
    ensures { IfOk result (λ reply. IsAnswer input.now reply.status (string_bytes reply.text)) }
{
    let (document, hook) = match parse_document(alloc, input) {
        Ok(parsed) => parsed,
        Err(DocumentError::Form) => {
            let text = String::from_str(alloc, "error: document\n")?;
            return Ok(Reply { status: 2, text });
        }
        Err(DocumentError::OutOfMemory) => return Err(AllocError),
    };
    match bundles_of(alloc, document, hook) {
        Ok(mut text) => {
            text.push('\n')?;
            Ok(Reply { status: 0, text })
        }
        Err(refusal) => {
            let text = refusal_text(alloc, &refusal)?;
            Ok(Reply { status: 1, text })
        }
    }
}

// The text of the bundles that a document asks for.
fn bundles_of(alloc: Global, document: Document, hook: MetaHook) -> Result<String, Error>
    ensures made { IfOk result (λ text.
        IsDocumentAnswer (may_list hook) fails_nowhere document (string_bytes text)) }
    ensures refused { IfErr result (λ refusal. (refusal ≡ Error.OutOfMemory)
        ⊎ IsDocumentRefusal (may_list hook) fails_nowhere document refusal) }
{
    let hook = Box::new(alloc, hook)?;
    answer_text(alloc, document, hook)
}
