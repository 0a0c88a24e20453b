//! Answers of a cache.
ghost use Rattle.std.specs.Prelude.{◌≡◌, map};
ghost use Rattle.std.specs.List.Sorted.{IsStrictlySortedBy};
ghost use Rattle.pj_cache.specs.Places.{byte_order};
ghost use Rattle.pj_reuse.specs.Same.{is_same_answer};
ghost use Rattle.pj_reuse.specs.Serving.{is_kept};

use pj_base::Exact;
use pj_cache::place_of_name;
use pj_names::{Answer, ClassName};
use std::sync::Arc;

/// Whether two answers are the same.
fn is_same_answer(first: &Answer, second: &Answer) -> bool
    ensures { result ≡ is_same_answer first.now second.now }
{
    first.is(second)
}

/// Whether the answer for a name among others is this one, by bisection.
pub(crate) fn is_kept(
    answers: &[(ClassName, Arc<Answer>)],
    name: &ClassName,
    current: &Answer,
) -> bool
    requires { IsStrictlySortedBy byte_order (map (λ a. a.0) answers.now) }
    ensures { result ≡ is_kept (map (λ a. (a.0, a.1.value)) answers.now) name.now current.now }
{
    let place = place_of_name(answers, name);
    if place >= answers.len() {
        return false;
    }
    let pair = &answers[place];
    let is_here = pair.0.is(name);
    if !is_here {
        return false;
    }
    is_same_answer(&*pair.1, current)
}
