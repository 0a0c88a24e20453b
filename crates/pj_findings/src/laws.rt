//! Laws of the definitions, each the contract of a call that does nothing.
ghost use Rattle.pj_findings.specs.Laws.{ErrorsAreKept, ErrorsAscend, FindingsAreKept, FindingsAreOfRules, FindingsAscend, NodesAreItems, NodesAscend, NoneHasBoth};

/// The nodes that a query finds are those among its items; they ascend, so each stands once.
pub fn nodes_are_the_items()
    ensures ascend { NodesAscend }
    ensures items { NodesAreItems }
{}

/// The findings of a file ascend by node and rule, where each rule's own ascend: none stands twice. Of each rule just its own
/// findings are there, and no others.
pub fn findings_are_the_rules()
    ensures ascend { FindingsAscend }
    ensures kept { FindingsAreKept }
    ensures of_rules { FindingsAreOfRules }
{}

/// The errors of a file ascend by rule, and of each rule just its own is there. No rule has findings and an error.
pub fn errors_are_the_rules()
    ensures ascend { ErrorsAscend }
    ensures kept { ErrorsAreKept }
    ensures either { NoneHasBoth }
{}
