//! Tests of queues of boxes, of dispatch queues, of chains of sleep queues and of chains of turnstiles, and of the records of threads that
//! stand on them.
#![tactic(auto)]

#[cfg(test)]
mod box_queues;
#[cfg(test)]
mod dispatch_queues;
#[cfg(test)]
mod items;
#[cfg(test)]
mod judging;
#[cfg(test)]
mod records;
#[cfg(test)]
mod sleep_queues;
#[cfg(test)]
mod turnstiles;
