// Worth books: what a soft task is worth by the time at which it ends.
#![tactic(auto)]

mod book;
mod call;
mod keenness;
mod laws;
mod layers;
mod place;
mod ramp;
mod standard;
mod step;
mod weights;

pub use book::{Book, TOP};
pub use call::Call;
pub use keenness::keenest;
pub use laws::{
    equal_books, equal_contents, equal_steps, kind_stands, last_worth, layers_stand, others_stay,
    ramps_mean, standard_is_layered, standard_means, steps_mean, sum_means, weighted_means,
    widest_product,
};
pub use layers::{Sum, Weighted};
pub use ramp::{Ramp, RampBook};
pub use standard::StandardBook;
pub use step::{Step, StepBook};
