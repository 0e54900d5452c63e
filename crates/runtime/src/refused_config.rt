//! What is said of a config that a call refuses.
ghost use Rattle.std.specs.Prelude.{◌≡◌};
ghost use Rattle.runtime.specs.AnswerTexts.{of_either};

use crate::bundles::Bundles;
use crate::refusal::Refusal;
use config_json::ConfigFault;
use faults::OrMemory;
use node::NodeFault;

/// The refusal for an error of a call that was given the config of this bundle; of one that is no JSON the operator is
/// told more.
pub fn refused_config<B: Bundles>(
    error: OrMemory<NodeFault>,
    bundles: &B,
    bundle: &str,
    config: &[u8],
) -> Refusal
    ensures { result ≡ of_either error }
{
    if let OrMemory::Fault(NodeFault::Config(ConfigFault::NotJson)) = error {
        bundles.tell_not_json(bundle, config);
    }
    Refusal::from(error)
}
