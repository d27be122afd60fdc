//! A world that gets its events as lines.
use super::super::networks::network_of;
use super::events::{event_of, number_text, outcome_text, way_text};
use path_vector::Policy;
use std::alloc::Global;
use std::process::Abort;
use std::test::Fail;
use world_core::{Event, Outcome, World};

#[derive(Drop)]
pub struct Play<P: Policy + Copy> {
    // `None` after a stop.
    world: Option<World<P>>,
}

impl<P: Policy + Copy> Play<P> {
    /// The world of this file's network, before any event.
    pub fn new(rt: &impl Abort, alloc: Global, file: &str, policy: P) -> Result<Play<P>, Fail> {
        let topology = network_of(rt, alloc, file)?;
        let world = World::new(alloc, topology, policy)?;
        Ok(Play { world: Some(world) })
    }

    pub fn world(&self) -> Result<&World<P>, Fail> {
        Ok(self.world.as_ref().ok_or("a world")?)
    }

    // The event has to fit.
    fn happen(&mut self, event: Event) -> Result<Outcome, Fail> {
        let world = self.world.take().ok_or("a world")?;
        if !world.fits(&event) {
            return Err("an event that fits".into());
        }
        let (world, outcome) = world.step(event)?;
        self.world = Some(world);
        Ok(outcome)
    }

    // What the event does, or why it does nothing; then the next delivery, and the next control message.
    fn told(&mut self, alloc: Global, event: Event) -> Result<String, Fail> {
        let outcome = self.happen(event)?;
        let did = outcome_text(alloc, &outcome)?;
        let world = self.world()?;
        let way = way_text(alloc, world.next_delivery())?;
        let mail = number_text(alloc, world.next_mail())?;
        Ok(format!(in alloc; "{did} | {way} {mail}")?)
    }

    /// Each line has an event, what it does or why it does nothing, and what is next then: a delivery and a control
    /// message.
    pub fn run(&mut self, rt: &impl Abort, alloc: Global, lines: &str) -> Result<(), Fail> {
        for line in lines.lines() {
            let (happens, comes) = line.split_once('|').ok_or("what comes of it")?;
            let told = self.told(alloc, event_of(alloc, happens.trim())?)?;
            assert_eq!(rt; told.trim(), comes.trim(), "{line}");
        }
        Ok(())
    }

    /// Makes the next delivery, over this way; after it there are so many events.
    pub fn deliver(
        &mut self,
        rt: &impl Abort,
        alloc: Global,
        way: &str,
        events: usize,
    ) -> Result<(), Fail> {
        let world = self.world.take().ok_or("a world")?;
        let (world, went) = world.deliver_next()?;
        let went = way_text(alloc, went)?;
        assert_eq!(rt; went.as_str(), way);
        assert_eq!(rt; world.events().len(), events);
        self.world = Some(world);
        Ok(())
    }

    /// Each line has an event, and whether it fits.
    pub fn admits(&self, rt: &impl Abort, alloc: Global, lines: &str) -> Result<(), Fail> {
        let world = self.world()?;
        for line in lines.lines() {
            let (text, answer) = line.split_once(": ").ok_or("an answer")?;
            let event = event_of(alloc, text)?;
            assert!(rt; world.fits(&event) == (answer == "yes"), "{line}");
        }
        Ok(())
    }
}
