//! What the checks of a text decide. The function does nothing: its contract is the law.

ghost use Rattle.mask_inspect.specs.Laws.{FirstFailureIsOne, NoneFailsWhereAllPass, TextIsOne};

use mask_laws::bridges::{clash_is_unique, clash_refutes};
use mask_text::text_or_fault;

/// The first check that fails decides one status, and where all pass there is none. A text stands for one circuit.
pub fn checks_decide()
    ensures one { FirstFailureIsOne }
    ensures none { NoneFailsWhereAllPass }
    ensures text { TextIsOne }
{
    text_or_fault();
    clash_is_unique();
    clash_refutes();
}
