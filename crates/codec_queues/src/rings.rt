// The queues of a codec, in three rings.
ghost use Rattle.std.specs.Prelude.{◌≡◌, ◌==◌, not, ◌<◌, ◌≤◌, ◌+◌, ◌*◌, ◌^◌, ◌++◌, ◌∷◌, [], length, drop, cond, ◌-◌, count_by, option_map, IfOk, IfNone, IfSome, OnOk, OnErr};
ghost use Rattle.codec_model.specs.Control.{front, is_desaturate};
ghost use Rattle.codec_queues.specs.Labels.{task_label};
ghost use Rattle.codec_queues.specs.Queues.{AreQueued, places_of, removed_from, tasks_of, with_places, with_tasks};

use crate::labels::Queued;
use circular_buffer::HeapCircularBuffer;
use codec_model::{Item, Message, Task};
use std::alloc::Global;
use std::marker::Model;
use wc_base::NoMemory;
use wc_config::AudioDecoderConfig;

/// Puts an item into a free place behind the others.
fn put_back<T: Drop>(ring: &mut HeapCircularBuffer<T>, item: T)
    requires { length ring.old.items < ring.old.capacity }
    ensures items { ring.new.items ≡ ring.old.items ++ item ∷ [] }
    ensures capacity { ring.new.capacity ≡ ring.old.capacity }
{
    match ring.try_push_back(item) {
        Ok(()) => {}
        Err(_) => unreachable!(),
    }
}

/// Takes the front item out.
fn take_front<T>(ring: &mut HeapCircularBuffer<T>) -> Option<T>
    ensures some { IfSome result (λ x. ring.old.items ≡ x ∷ ring.new.items) }
    ensures none { IfNone result (ring.old.items ≡ []) }
    ensures rest { ring.new.items ≡ drop 1 ring.old.items }
    ensures capacity { ring.new.capacity ≡ ring.old.capacity }
    ensures within { length ring.old.items ≤ ring.old.capacity }
{
    let _len = ring.len();
    ring.pop_front()
}

const MOST_PLACES: usize = 0x2000_0000_0000_0000;

/// Makes at least so many free places. A ring at least doubles where it grows.
fn make_places<T>(ring: &mut HeapCircularBuffer<T>, places: usize) -> Result<(), NoMemory>
    requires { places < 2 ^ 62 }
    ensures items { ring.new.items ≡ ring.old.items }
    ensures capacity { OnOk result (length ring.new.items + places ≤ ring.new.capacity) }
    ensures grows { ring.old.capacity ≤ ring.new.capacity }
{
    let len = ring.len();
    let capacity = ring.capacity();
    if capacity - len >= places {
        return Ok(());
    }
    if len >= MOST_PLACES {
        return Err(NoMemory);
    }
    ring.resize((2 * capacity).max(len + places))?;
    Ok(())
}

fn is_desaturate(task: &Task) -> bool
    ensures { result ≡ is_desaturate task.now }
{
    matches!(task, Task::Desaturate)
}

/// So many that desaturate, with one more where this task does.
fn more_desaturates(count: usize, task: &Task) -> usize
    requires { count + 1 < 2 ^ 64 }
    ensures { result ≡ count + cond (is_desaturate task.now) 1 0 }
{
    if is_desaturate(task) {
        count + 1
    } else {
        count
    }
}

/// So many that desaturate, with one fewer where this task does.
fn fewer_desaturates(count: usize, task: &Task) -> usize
    requires { cond (is_desaturate task.now) 1 0 ≤ count }
    ensures { result + cond (is_desaturate task.now) 1 0 ≡ count }
{
    if is_desaturate(task) {
        count - 1
    } else {
        count
    }
}

/// Takes out the first task that counts in this epoch, with all those before it.
#[tactic(auto, using(crate::proofs::Counting::passed_none, crate::proofs::Counting::passed_more, crate::proofs::Counting::passed_found, crate::proofs::Counting::none_left))]
fn take_counting(tasks: &mut HeapCircularBuffer<Queued>, epoch: u64) -> Option<Queued>
    requires { AreQueued epoch tasks.old.items }
    ensures some { IfSome result
        (λ q. tasks_of epoch tasks.old.items ≡ q.task ∷ tasks_of epoch tasks.new.items) }
    ensures none { IfNone result (tasks_of epoch tasks.old.items ≡ []) }
    ensures rest { tasks_of epoch tasks.new.items ≡ drop 1 (tasks_of epoch tasks.old.items) }
    ensures queued { AreQueued epoch tasks.new.items }
    ensures places { places_of epoch tasks.old.items tasks.old.capacity
        ≤ places_of epoch tasks.new.items tasks.new.capacity }
{
    while let Some(queued) = take_front(tasks) {
        if queued.counts(epoch) {
            return Some(queued);
        }
    }
    None
}

/// The queues of a codec in an epoch: messages, items, and event tasks. The tasks that a removal leaves behind stay in their
/// ring until a turn passes over them, so that a removal does not go through them.
#[derive(Drop)]
pub struct Queues {
    epoch: u64,
    messages: HeapCircularBuffer<Message>,
    work: HeapCircularBuffer<Item>,
    tasks: HeapCircularBuffer<Queued>,
    // How many of the tasks that count desaturate the codec.
    desaturates: usize,
}

impl Model for Queues {
    ghost use Rattle.codec_queues.specs.Queues.{AreOfQueues, QueuesValue, places_of, tasks_of};

    ghost Value = { QueuesValue };

    ghost view = { λ q. record { epoch = q.epoch; messages = q.messages.items; work = q.work.items; tasks = tasks_of q.epoch q.tasks.items; message_places = q.messages.capacity; work_places = q.work.capacity; task_places = places_of q.epoch q.tasks.items q.tasks.capacity } };

    ghost invariant = { λ q. AreOfQueues q.epoch q.tasks.items q.desaturates };
}

impl Queues {
    /// Queues with nothing in them, and a place for one task.
    pub fn open(alloc: Global) -> Result<Queues, NoMemory>
        ensures { IfOk result (λ q. q
            ≡ record {
              epoch = 0;
              messages = [];
              work = [];
              tasks = [];
              message_places = 0;
              work_places = 0;
              task_places = 1;
            }) }
    {
        Ok(Queues {
            epoch: 0,
            messages: HeapCircularBuffer::with_capacity(alloc, 0)?,
            work: HeapCircularBuffer::with_capacity(alloc, 0)?,
            tasks: HeapCircularBuffer::with_capacity(alloc, 1)?,
            desaturates: 0,
        })
    }

    /// The epoch.
    pub fn epoch(&self) -> u64
        ensures { result ≡ self.now.epoch }
    {
        self.epoch
    }

    /// The front message.
    pub fn front_message(&self) -> Option<&Message>
        ensures { option_map (λ m. m.now) result ≡ front self.now.messages }
    {
        self.messages.front()
    }

    /// The front item.
    pub fn front_item(&self) -> Option<&Item>
        ensures { option_map (λ i. i.now) result ≡ front self.now.work }
    {
        self.work.front()
    }

    /// How many messages there are.
    pub fn message_count(&self) -> usize
        ensures { result ≡ length self.now.messages }
    {
        self.messages.len()
    }

    /// How many items there are.
    pub fn item_count(&self) -> usize
        ensures { result ≡ length self.now.work }
    {
        self.work.len()
    }

    /// At least as many as there are tasks that count.
    pub fn task_count(&self) -> usize
        ensures { length self.now.tasks ≤ result }
    {
        self.tasks.len()
    }

    /// Whether one of the tasks desaturates the codec.
    pub fn desaturates(&self) -> bool
        ensures { result ≡ not (count_by is_desaturate self.now.tasks == 0) }
    {
        self.desaturates != 0
    }

    /// Makes places for a message more, for so many items in all, and for so many tasks and one more in all.
    pub fn reserve(&mut self, room: usize) -> Result<(), NoMemory>
        requires { room + 1 < 2 ^ 62 }
        ensures same { self.new ≡ with_places self.new self.old }
        ensures for_message { OnOk result (length self.new.messages < self.new.message_places) }
        ensures for_work { OnOk result (room ≤ self.new.work_places) }
        ensures for_tasks { OnOk result (room + 1 ≤ self.new.task_places) }
        ensures work_grows { self.old.work_places ≤ self.new.work_places }
        ensures tasks_grow { self.old.task_places ≤ self.new.task_places }
    {
        make_places(&mut self.messages, 1)?;
        make_places(&mut self.work, room)?;
        make_places(&mut self.tasks, room + 1)?;
        Ok(())
    }

    /// A message is sent.
    pub fn push_message(&mut self, message: Message)
        requires { length self.old.messages < self.old.message_places }
        ensures { self.new ≡ record self.old { messages = self.old.messages ++ message ∷ [] } }
    {
        put_back(&mut self.messages, message);
    }

    /// The front message leaves the queue.
    pub fn pop_message(&mut self) -> Option<Message>
        ensures some { IfSome result (λ m. self.old.messages ≡ m ∷ drop 1 self.old.messages) }
        ensures none { IfNone result (self.old.messages ≡ []) }
        ensures rest { self.new ≡ record self.old { messages = drop 1 self.old.messages } }
    {
        take_front(&mut self.messages)
    }

    /// An item is queued.
    pub fn push_item(&mut self, item: Item)
        requires { length self.old.work < self.old.work_places }
        ensures { self.new ≡ record self.old { work = self.old.work ++ item ∷ [] } }
    {
        put_back(&mut self.work, item);
    }

    /// The front item leaves the queue.
    pub fn pop_item(&mut self) -> Option<Item>
        ensures some { IfSome result (λ i. self.old.work ≡ i ∷ drop 1 self.old.work) }
        ensures none { IfNone result (self.old.work ≡ []) }
        ensures rest { self.new ≡ record self.old { work = drop 1 self.old.work } }
    {
        take_front(&mut self.work)
    }

    /// A task is queued, with a copy of the config that its outputs carry.
    pub fn push_task(&mut self, task: Task, label: Option<AudioDecoderConfig>)
        requires places { length self.old.tasks < self.old.task_places }
        requires label { label ≡ task_label task }
        ensures { self.new ≡ with_tasks (self.old.tasks ++ task ∷ []) self.old }
    {
        let _len = self.tasks.len();
        self.desaturates = more_desaturates(self.desaturates, &task);
        put_back(&mut self.tasks, Queued::new(self.epoch, task, label));
    }

    /// The front task leaves the queue, with the copy of the config that its outputs carry. Tasks before it that a removal
    /// left behind go with it.
    pub fn pop_task(&mut self) -> Option<(Task, Option<AudioDecoderConfig>)>
        ensures some { IfSome result (λ t. self.old.tasks ≡ t.0 ∷ self.new.tasks) }
        ensures label { IfSome result (λ t. t.1 ≡ task_label t.0) }
        ensures none { IfNone result (self.old.tasks ≡ []) }
        ensures rest { self.new.tasks ≡ drop 1 self.old.tasks }
        ensures epoch { self.new.epoch ≡ self.old.epoch }
        ensures messages { self.new.messages ≡ self.old.messages }
        ensures work { self.new.work ≡ self.old.work }
        ensures work_places { self.new.work_places ≡ self.old.work_places }
        ensures task_places { self.old.task_places ≤ self.new.task_places }
    {
        let queued = take_counting(&mut self.tasks, self.epoch)?;
        let (task, label) = queued.into_parts();
        self.desaturates = fewer_desaturates(self.desaturates, &task);
        Some((task, label))
    }

    /// All messages and items go, and a new epoch begins, in which of the tasks the dequeue events alone count. The tasks
    /// are left where they are.
    pub fn remove_all(&mut self)
        requires { self.old.epoch + 1 < 2 ^ 64 }
        ensures { self.new ≡ removed_from self.old }
    {
        self.epoch += 1;
        self.messages.clear();
        self.work.clear();
        self.desaturates = 0;
    }
}
