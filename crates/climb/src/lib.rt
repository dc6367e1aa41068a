// The climb: from any fair flow to a fair one that is most often the greatest, by many pushes from one look at how far each module is from the makers. It promises that the flow stays fair and no more, so that nothing rests on what it tries: the engine goes on from its flow, and the engine's last search decides.
#![tactic(auto)]

pub mod climb;
mod land;
mod onward;
mod ways;
