//! A walk along the labels of a lasso, over sets of normal forms.
use super::end_oracle::Demand;
use super::ended_match_run::LassoTexts;
use super::graph::{Graph, Step};
use std::alloc::{AllocError, Global};
use std::test::Fail;

/// Whether steps with the labels of the row and then twice with those of the loop begin at one of the normal forms,
/// each as is demanded, and whether the loop has a label.
pub fn is_lasso(
    alloc: Global,
    graph: &Graph,
    demand: Demand,
    from: &[usize],
    lasso: &LassoTexts,
) -> Result<bool, Fail> {
    let at = followed(alloc, graph, demand, from, lasso.row.as_slice())?;
    let at = followed(alloc, graph, demand, at.as_slice(), lasso.turn.as_slice())?;
    let at = followed(alloc, graph, demand, at.as_slice(), lasso.turn.as_slice())?;
    Ok(!lasso.turn.is_empty() && !at.is_empty())
}

/// The normal forms to which steps with the labels lead.
fn followed(
    alloc: Global,
    graph: &Graph,
    demand: Demand,
    from: &[usize],
    labels: &[String],
) -> Result<Vec<usize>, Fail> {
    let mut at = Vec::from_slice(alloc, from)?;
    for label in labels {
        at = followed_once(alloc, graph, demand, at.as_slice(), label.as_str())?;
    }
    Ok(at)
}

fn followed_once(
    alloc: Global,
    graph: &Graph,
    demand: Demand,
    from: &[usize],
    label: &str,
) -> Result<Vec<usize>, Fail> {
    let mut targets = Vec::new(alloc);
    if demand.goes_on_by(label) {
        for form in from {
            add_targets(graph.steps(*form)?, label, &mut targets)?;
        }
    }
    Ok(targets)
}

fn add_targets(steps: &[Step], label: &str, targets: &mut Vec<usize>) -> Result<(), AllocError> {
    for step in steps {
        if step.label == label && !targets.as_slice().contains(&step.to) {
            targets.push(step.to)?;
        }
    }
    Ok(())
}
