//! Contexts that nothing has yet.

ghost use Rattle.std.specs.Prelude.{◌≡◌, ◌+◌, ◌*◌, ◌<◌, ◌≤◌, suc, IfErr, IfNone, IfOk, IfSome, Some, None, unwrap_or};
ghost use Rattle.bundle_rules.specs.Kept as kept;
ghost use Rattle.bundle_merge_names.specs.Numbers.{position};
ghost use Rattle.bundle_merge_names.specs.declared.error.MergeError.TheVariants.{ContextsUsedUp};

use crate::error::MergeError;

/// The context of a name that no module declares.
pub const GLOBAL: u32 = 1;

/// The numbers of contexts from the next one on.
#[derive(Clone, Copy, PartialEq, Eq, Debug)]
pub struct FreshContexts {
    next: Option<u32>,
}

impl FreshContexts {
    /// The contexts above those of so many files, each of which has two.
    pub fn above(files: usize) -> FreshContexts
        ensures next { IfSome result.next (λ next. next ≡ files * 2 + 2) }
        ensures none { IfNone result.next (4294967295 < files * 2 + 2) }
    {
        FreshContexts {
            next: first_above(files),
        }
    }

    /// The contexts from this one on.
    pub fn from_next(next: u32) -> FreshContexts
        ensures { result.next ≡ Some next }
    {
        FreshContexts { next: Some(next) }
    }

    /// The next context, if there is one.
    pub fn next(&self) -> Option<u32>
        ensures { result ≡ self.now.next }
    {
        self.next
    }

    /// The next context, for a name of a module or, without one, of the linker's own.
    pub fn take(&mut self, which: Option<usize>) -> Result<u32, MergeError>
        ensures taken { IfOk result (λ context. context ≡ position self.old) }
        ensures next { IfOk result (λ context. position self.new ≡ suc context) }
        ensures refused { IfErr result (λ refusal. refusal ≡ ContextsUsedUp which) }
        ensures none { IfErr result (λ refusal. self.old.next ≡ None) }
        ensures kept { IfErr result (λ refusal. self.new ≡ self.old) }
    {
        let next = self.next;
        let Some(context) = next else {
            return Err(MergeError::ContextsUsedUp { which });
        };
        self.next = after(context);
        Ok(context)
    }
}

// The context after one, if there is one.
fn after(context: u32) -> Option<u32>
    ensures { unwrap_or result 4294967296 ≡ suc context }
{
    context.checked_add(1)
}

// The first context behind those of so many files.
fn first_above(files: usize) -> Option<u32>
    ensures next { IfSome result (λ next. next ≡ files * 2 + 2) }
    ensures none { IfNone result (4294967295 < files * 2 + 2) }
{
    let last = files.checked_mul(2)?;
    u32::try_from(last.checked_add(2)?).ok()
}

/// The context of the names at the top of the file with this number.
pub fn local_context(file: u32) -> u32
    ensures { file * 2 + 2 ≤ 4294967295 → result ≡ kept.local_context file }
{
    file.saturating_mul(2).saturating_add(2)
}
