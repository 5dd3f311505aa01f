//! The builder of an image, row by row.
ghost use Rattle.std.specs.Prelude.{◌≡◌, ◌≤◌, ◌<◌, ◌^◌, length, None, Some, MatchResult, OnOk, OnErr, IfOk, IfErr};
ghost use Rattle.std.specs.List.{list_any};
ghost use Rattle.mmv_writer.specs.Rules.{header_fault, indom_fault, has_domain, has_same_instance, instance_fault, is_same_metric, lacks_domain, metric_fault, fits_some_metric, is_same_value, value_fault, text_fault};
ghost use Rattle.mmv_writer.specs.Spelling.{image_words};
ghost use Rattle.mmv_writer.specs.Refusals.{IsTooLarge};
ghost use Rattle.mmv_writer.specs.Reading.{kind_in};
ghost use Rattle.mmv_writer.specs.Draft.{IsStored, IsHelp, IsContent, IsDraft, IsRefusal, empty_draft, new_domain, with_domain, with_instance, with_metric, with_value, with_string};

use crate::adding::{add_domain, add_instance, add_metric, add_value};
use crate::drafting::words_of_draft;
use crate::fault::BuildFault;
use crate::keys::{RowKeys, has_domain, has_either, has_metric};
use crate::rules::{
    fits_metric, header_fault, is_instance_name, is_long_content, is_long_help, is_metric_name,
    is_serial, text_fault,
};
use mmv_layout::{Image, IndomRow, Layout, MetricRow, ValueRow};
use pcp_base::{Kind, List, NoMemory, Text};
use std::alloc::Global;
use std::marker::Model;

/// The rows of an image (mmv(5)) that were given so far, each checked as it came. Contracts see it as
/// what they say.
#[derive(Drop)]
pub struct Builder {
    layout: Layout,
    keys: RowKeys,
}

impl Model for Builder {
    ghost use Rattle.mmv_layout.specs.declared.rows.Layout.{Layout};
    ghost use Rattle.mmv_writer.specs.Draft.{IsDraft};
    ghost use Rattle.mmv_writer.specs.Keys.{HasKeys};

    ghost Value = { Layout };

    ghost view = { λ a. a.layout };

    ghost invariant = { λ a. IsDraft a.layout × HasKeys a.keys a.layout };
}

/// The image of a draft.
fn image_of(alloc: Global, draft: &Layout) -> Result<Image, BuildFault>
    requires { IsDraft draft.now }
    ensures ok { IfOk result (λ image. (image ≡ image_words draft.now) × (length (image_words draft.now) ≤ 65536)) }
    ensures err { IfErr result (λ fault. IsTooLarge draft.now fault) }
{
    let words = words_of_draft(alloc, draft)?;
    Ok(Image::of_words(words))
}

impl Builder {
    /// Whether some domain has a serial.
    fn has_domain(&self, serial: u32) -> bool
        ensures { result ≡ has_domain self.now.indoms serial }
    {
        has_domain(&self.keys.domains, serial)
    }

    /// Whether the domain of this serial has an instance of this number or name.
    fn has_same_instance(&self, serial: u32, id: &i32, name: &Text) -> bool
        ensures { result ≡ has_same_instance self.now.indoms serial (id.now, name.now) }
    {
        has_either(&self.keys.domains, serial, id, name)
    }

    /// Why a domain isn't taken.
    #[tactic(auto, unfolding(crate::specs::Rules::indom_fault))]
    fn indom_fault(&self, row: &IndomRow) -> Option<BuildFault>
        ensures value { result ≡ indom_fault self.now row.now }
        ensures helps { result ≡ None → IsHelp row.now.short × IsHelp row.now.long }
    {
        if is_long_help(&row.short) || is_long_help(&row.long) {
            return Some(BuildFault::Name);
        }
        if self.has_domain(row.serial) {
            return Some(BuildFault::Duplicate);
        }
        if is_serial(row.serial) {
            None
        } else {
            Some(BuildFault::Serial)
        }
    }

    /// Why an instance isn't taken.
    #[tactic(auto, unfolding(crate::specs::Rules::instance_fault))]
    fn instance_fault(&self, serial: u32, id: &i32, name: &Text) -> Option<BuildFault>
        ensures value { result ≡ instance_fault self.now serial id.now name.now }
        ensures stored { IsStored name.now }
    {
        if !is_instance_name(self.layout.version, name) {
            return Some(BuildFault::Name);
        }
        if self.has_same_instance(serial, id, name) {
            return Some(BuildFault::Duplicate);
        }
        if !self.has_domain(serial) {
            return Some(BuildFault::Unknown { serial });
        }
        if *id < 0 {
            Some(BuildFault::Serial)
        } else {
            None
        }
    }

    /// The serial of which there is no domain.
    fn lacks_domain(&self, serial: Option<u32>) -> Option<u32>
        ensures { result ≡ lacks_domain self.now.indoms serial }
    {
        match serial {
            None => None,
            Some(serial) => {
                if self.has_domain(serial) {
                    None
                } else {
                    Some(serial)
                }
            }
        }
    }

    /// Whether some metric has the item or the name of this one.
    fn has_same_metric(&self, row: &MetricRow) -> bool
        ensures { result ≡ list_any (λ other. is_same_metric other row.now) self.now.metrics }
    {
        has_metric(&self.keys.items, &self.keys.names, row)
    }

    /// Why a metric isn't taken.
    #[tactic(auto, unfolding(crate::specs::Rules::metric_fault))]
    fn metric_fault(&self, row: &MetricRow) -> Option<BuildFault>
        ensures value { result ≡ metric_fault self.now row.now }
        ensures helps { result ≡ None → IsHelp row.now.short × IsHelp row.now.long }
        ensures units { row.now.units < 2 ^ 32 }
        ensures stored { IsStored row.now.name }
    {
        let _units = row.units.word();
        if !is_metric_name(self.layout.version, &row.name)
            || is_long_help(&row.short)
            || is_long_help(&row.long)
        {
            return Some(BuildFault::Name);
        }
        if self.has_same_metric(row) {
            return Some(BuildFault::Duplicate);
        }
        if let Some(serial) = self.lacks_domain(row.serial) {
            return Some(BuildFault::Unknown { serial });
        }
        if row.item <= 1023 {
            None
        } else {
            Some(BuildFault::Item)
        }
    }

    /// Whether some value has the metric and the instance of this one.
    fn has_same_value(&self, row: &ValueRow) -> bool
        ensures { result ≡ list_any (λ other. is_same_value other row.now) self.now.values }
    {
        self.keys.values.contains(&(row.item, row.instance))
    }

    /// Whether a value is one of the metric with its item.
    fn fits_some_metric(&self, row: &ValueRow) -> bool
        ensures { result ≡ fits_some_metric self.now.indoms self.now.metrics row.now }
    {
        let Some(at) = self.keys.items.get(&row.item) else {
            return false;
        };
        match self.layout.metrics.get(*at) {
            None => false,
            Some(metric) => fits_metric(&self.keys.domains, row, metric),
        }
    }

    /// Why a value isn't taken.
    #[tactic(auto, unfolding(crate::specs::Rules::value_fault))]
    fn value_fault(&self, row: &ValueRow) -> Option<BuildFault>
        ensures value { result ≡ value_fault self.now row.now }
        ensures content { result ≡ None → IsContent row.now.content }
    {
        if is_long_content(&row.content) {
            return Some(BuildFault::Name);
        }
        if self.has_same_value(row) {
            return Some(BuildFault::Duplicate);
        }
        if self.fits_some_metric(row) {
            None
        } else {
            Some(BuildFault::Item)
        }
    }

    /// The builder of an image without a row; `Serial` exactly for a version other than 1 and 2 or a cluster above
    /// 4095.
    #[tactic(auto, using(crate::proofs::Drafts::nothing_added), unfolding(crate::specs::Draft::empty_draft))]
    pub fn new(
        alloc: Global,
        version: u32,
        generation: u64,
        flags: u32,
        pid: u32,
        cluster: u32,
    ) -> Result<Builder, BuildFault>
        ensures { MatchResult result
            (λ made. (header_fault version cluster ≡ None) × (made ≡ empty_draft version generation flags pid cluster))
            (λ fault. header_fault version cluster ≡ Some fault) }
    {
        if let Some(fault) = header_fault(version, cluster) {
            return Err(fault);
        }
        Ok(Builder {
            layout: Layout {
                version,
                generation,
                flags,
                pid,
                cluster,
                indoms: List::empty(alloc),
                metrics: List::empty(alloc),
                values: List::empty(alloc),
                strings: List::empty(alloc),
            },
            keys: RowKeys::empty(alloc),
        })
    }

    /// Adds an instance domain, as yet without instances. After a refusal nothing is changed.
    #[tactic(auto, using(crate::proofs::Drafts::domain_added), unfolding(crate::specs::Draft::with_domain))]
    pub fn indom(
        &mut self,
        alloc: Global,
        serial: u32,
        short: Option<Text>,
        long: Option<Text>,
    ) -> Result<(), BuildFault>
        ensures { MatchResult result
            (λ _. (indom_fault self.old (new_domain serial short long) ≡ None) × (self.new ≡ with_domain self.old (new_domain serial short long)))
            (λ fault. IsRefusal (indom_fault self.old (new_domain serial short long)) fault × (self.new ≡ self.old)) }
    {
        let row = IndomRow {
            serial,
            instances: List::empty(alloc),
            short,
            long,
        };
        if let Some(fault) = self.indom_fault(&row) {
            return Err(fault);
        }
        add_domain(alloc, &mut self.layout.indoms, &mut self.keys.domains, row)?;
        Ok(())
    }

    /// Adds an instance at the end of its domain. After a refusal nothing is changed.
    #[tactic(auto, using(crate::proofs::Drafts::instance_added), unfolding(crate::specs::Draft::with_instance))]
    pub fn instance(
        &mut self,
        alloc: Global,
        serial: u32,
        id: i32,
        name: Text,
    ) -> Result<(), BuildFault>
        ensures { MatchResult result
            (λ _. (instance_fault self.old serial id name ≡ None) × (self.new ≡ with_instance self.old serial id name))
            (λ fault. IsRefusal (instance_fault self.old serial id name) fault × (self.new ≡ self.old)) }
    {
        if let Some(fault) = self.instance_fault(serial, &id, &name) {
            return Err(fault);
        }
        add_instance(
            alloc,
            &mut self.layout.indoms,
            &mut self.keys.domains,
            serial,
            (id, name),
        )?;
        Ok(())
    }

    /// Adds a metric. After a refusal nothing is changed.
    #[tactic(auto, using(crate::proofs::Drafts::metric_added), unfolding(crate::specs::Draft::with_metric))]
    pub fn metric(&mut self, alloc: Global, row: MetricRow) -> Result<(), BuildFault>
        ensures { MatchResult result
            (λ _. (metric_fault self.old row ≡ None) × (self.new ≡ with_metric self.old row))
            (λ fault. IsRefusal (metric_fault self.old row) fault × (self.new ≡ self.old)) }
    {
        if let Some(fault) = self.metric_fault(&row) {
            return Err(fault);
        }
        let name = Vec::from_slice(alloc, row.name.as_slice())?;
        add_metric(
            &mut self.layout.metrics,
            &mut self.keys.items,
            &mut self.keys.names,
            row,
            name,
        )?;
        Ok(())
    }

    /// The kind of the metric with an item, if there is one.
    pub fn kind_of(&self, item: u32) -> Option<Kind>
        ensures { result ≡ kind_in self.now.metrics item }
    {
        let Some(at) = self.keys.items.get(&item) else {
            return None;
        };
        match self.layout.metrics.get(*at) {
            None => None,
            Some(metric) => Some(metric.kind),
        }
    }

    /// Adds a value of a metric that is there. After a refusal nothing is changed.
    #[tactic(auto, using(crate::proofs::Drafts::value_added), unfolding(crate::specs::Draft::with_value))]
    pub fn value(&mut self, row: ValueRow) -> Result<(), BuildFault>
        ensures { MatchResult result
            (λ _. (value_fault self.old row ≡ None) × (self.new ≡ with_value self.old row))
            (λ fault. IsRefusal (value_fault self.old row) fault × (self.new ≡ self.old)) }
    {
        if let Some(fault) = self.value_fault(&row) {
            return Err(fault);
        }
        add_value(&mut self.layout.values, &mut self.keys.values, row)?;
        Ok(())
    }

    /// Adds a string, which help texts, string values and in version 2 names that are equal to it will share. After a refusal nothing is
    /// changed.
    #[tactic(auto, using(crate::proofs::Drafts::string_added), unfolding(crate::specs::Draft::with_string))]
    pub fn text(&mut self, text: Text) -> Result<(), BuildFault>
        ensures { MatchResult result
            (λ _. (text_fault text ≡ None) × (self.new ≡ with_string self.old text))
            (λ fault. IsRefusal (text_fault text) fault × (self.new ≡ self.old)) }
    {
        if let Some(fault) = text_fault(&text) {
            return Err(fault);
        }
        self.layout.strings.push(text)?;
        Ok(())
    }

    /// Ends the builder and gives the image of its rows, in the one spelling. `TooLarge` exactly where that needs more
    /// than 65,536 words; a refusal gives the builder back as it was.
    pub fn finish(self, alloc: Global) -> Result<Image, (Builder, BuildFault)>
        ensures ok { IfOk result (λ image. (image ≡ image_words self) × (length (image_words self) ≤ 65536)) }
        ensures err { IfErr result (λ refused. (refused.0 ≡ self) × IsTooLarge self refused.1) }
    {
        match image_of(alloc, &self.layout) {
            Ok(image) => Ok(image),
            Err(fault) => Err((self, fault)),
        }
    }
}
