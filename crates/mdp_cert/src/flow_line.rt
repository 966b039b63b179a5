use mdp_claims::Flow;

/// What a line of the body says for the claim `max witness`.
#[derive(Clone, Copy)]
pub(crate) enum FlowLine {
    /// `keep N MARK`: a kept state, and whether it stays because without it a number is past width.
    Keep { state: u32, wide: bool },
    /// `flow N CHOICE AMOUNT`: a flow.
    Send(Flow),
}
