//! Lines about views that lag, and the replies to them.

ghost use Rattle.std.specs.Prelude.{◌≡◌, ◌<◌, IfOk, OnOk};
ghost use Rattle.serde_json.specs.View.{view as data_of};
ghost use Rattle.serde_json.specs.Written.{compact_text};
ghost use Rattle.lx_node.specs.Limits.{last_u32};
ghost use Rattle.lx_hub.specs.Hub.{html_at};
ghost use Rattle.lx_serving.specs.Replies.{attached_data, delivery_data, detached_data, html_data, hub_after_line, unknown_data, views_after, views_data, views_text};

use crate::asking::{AboutViews, about_views};
use crate::refusing::refuse;
use lx_hub::{Attached, Delivery, Hub};
use lx_node::NoMemory;
use serde_json::{Value, json};
use std::alloc::{AllocError, Global};

/// Answers a line about views, by the value of its member.
pub(crate) fn answer_about_views(
    alloc: Global,
    hub: &mut Hub,
    asked: &Value,
) -> Result<Vec<u8>, NoMemory>
    requires { hub.old.made < last_u32 }
    ensures text { IfOk result (λ reply. reply.items ≡ views_text (data_of asked.now) hub.old) }
    ensures hub { OnOk result (hub.new ≡ hub_after_line (data_of asked.now) hub.old) }
{
    match about_views(asked) {
        Some(about) => answer_about(alloc, hub, about),
        None => refuse(alloc),
    }
}

fn answer_about(alloc: Global, hub: &mut Hub, about: AboutViews) -> Result<Vec<u8>, NoMemory>
    requires { hub.old.made < last_u32 }
    ensures text { IfOk result (λ reply. reply.items ≡ compact_text (views_data about hub.old)) }
    ensures hub { OnOk result (hub.new ≡ views_after about hub.old) }
{
    let value = value_about(alloc, hub, about)?;
    Ok(value.to_vec(alloc)?)
}

/// Does what a line asks for, and says so.
fn value_about(alloc: Global, hub: &mut Hub, about: AboutViews) -> Result<Value, NoMemory>
    requires { hub.old.made < last_u32 }
    ensures data { IfOk result (λ value. data_of value ≡ views_data about hub.old) }
    ensures hub { OnOk result (hub.new ≡ views_after about hub.old) }
{
    match about {
        AboutViews::Attach => {
            let attached = hub.attach()?;
            Ok(attached_value(alloc, attached)?)
        }
        AboutViews::Deliver(view) => {
            let delivery = hub.deliver(view)?;
            Ok(delivery_value(alloc, view, delivery)?)
        }
        AboutViews::Html(view) => html_value(alloc, hub, view),
        AboutViews::Detach(view) => {
            let was_there = hub.detach(view);
            Ok(detached_value(alloc, was_there)?)
        }
    }
}

fn attached_value(alloc: Global, attached: Attached) -> Result<Value, AllocError>
    ensures { IfOk result (λ value. data_of value ≡ attached_data attached) }
{
    match attached {
        Attached::View(number) => json!(in alloc; {"attached": number}),
        Attached::Full => json!(in alloc; {"full": 32}),
    }
}

fn delivery_value(alloc: Global, view: u32, delivery: Delivery) -> Result<Value, AllocError>
    ensures { IfOk result (λ value. data_of value ≡ delivery_data view delivery) }
{
    match delivery {
        Delivery::Applied { reached } => {
            json!(in alloc; {"delivered": {"reached": reached, "view": view}})
        }
        Delivery::Level { reached } => {
            json!(in alloc; {"level": {"reached": reached, "view": view}})
        }
        Delivery::Behind { reached, oldest } => {
            json!(in alloc; {"behind": {"oldest": oldest, "reached": reached, "view": view}})
        }
        Delivery::Unknown => unknown_value(alloc, view),
    }
}

fn unknown_value(alloc: Global, view: u32) -> Result<Value, AllocError>
    ensures { IfOk result (λ value. data_of value ≡ unknown_data view) }
{
    json!(in alloc; {"unknown": view})
}

fn html_value(alloc: Global, hub: &Hub, view: u32) -> Result<Value, NoMemory>
    ensures { IfOk result (λ value. data_of value ≡ html_data view (html_at view hub.now)) }
{
    match hub.html(view)? {
        Some(html) => {
            let html = Value::try_from_str(alloc, html.as_str())?;
            Ok(json!(in alloc; {"html": html})?)
        }
        None => Ok(unknown_value(alloc, view)?),
    }
}

fn detached_value(alloc: Global, was_there: bool) -> Result<Value, AllocError>
    ensures { IfOk result (λ value. data_of value ≡ detached_data was_there) }
{
    json!(in alloc; {"detached": was_there})
}
